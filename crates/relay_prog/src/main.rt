//! The program: its words, its standard input and output, its status.
#![tactic(auto)]

mod os_host;
mod os_input;
mod os_output;
mod spare_blocks;
mod words;

use os_host::OsHost;
use relay_app::{Status, run_plain};
use std::process::ExitCode;

fn main(rt: HostRuntime) -> ExitCode {
    let alloc = rt.alloc();
    let status = match words::words(&rt, alloc) {
        Ok(words) => {
            let mut host = OsHost::new(rt, alloc, rt.stdin(), rt.stdout());
            run_plain(alloc, &mut host, &words)
        }
        Err(_) => Status::Memory,
    };
    if status.number() != 0 {
        let _told = eprintln!(rt; "{status}");
    }
    ExitCode::from(status.number())
}

#[cfg(test)]
mod tests;
