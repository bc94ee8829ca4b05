//! Commands and their options.
ghost use Rattle.std.specs.Prelude.{◌≡◌};
ghost use Rattle.relay_words.specs.Kinds.{has_option, is_among};
ghost use Rattle.relay_words.specs.Orders.{command_of};

use crate::parts::Part;

#[derive(Clone, Copy)]
pub(crate) enum CommandName {
    Frames,
    Chain,
    Relay,
    Mill,
}

pub(crate) fn command_of(w: &[u8]) -> Option<CommandName>
    ensures { result ≡ command_of w.now }
{
    if w == b"frames".as_slice() {
        return Some(CommandName::Frames);
    }
    if w == b"chain".as_slice() {
        return Some(CommandName::Chain);
    }
    if w == b"relay".as_slice() {
        return Some(CommandName::Relay);
    }
    if w == b"mill".as_slice() {
        return Some(CommandName::Mill);
    }
    None
}

pub(crate) fn has_option(command: CommandName, name: &[u8]) -> bool
    ensures { result ≡ has_option command name.now }
{
    match command {
        CommandName::Frames => is_frames_option(name),
        CommandName::Chain => is_among(&[Part::new(b"--in")], name),
        CommandName::Relay => is_relay_option(name),
        CommandName::Mill => is_among(&[], name),
    }
}

fn is_frames_option(name: &[u8]) -> bool
    ensures { result ≡ has_option CommandName.Frames name.now }
{
    let options = [
        Part::new(b"--block"),
        Part::new(b"--limit"),
        Part::new(b"--in"),
    ];
    is_among(&options, name)
}

fn is_relay_option(name: &[u8]) -> bool
    ensures { result ≡ has_option CommandName.Relay name.now }
{
    let options = [
        Part::new(b"--out"),
        Part::new(b"--stages"),
        Part::new(b"--block"),
        Part::new(b"--cap"),
        Part::new(b"--slow"),
        Part::new(b"--limit"),
        Part::new(b"--in"),
    ];
    is_among(&options, name)
}

#[tactic(auto, unfolding(crate::specs::Kinds::is_among))]
fn is_among(names: &[Part], name: &[u8]) -> bool
    ensures { result ≡ is_among names.now name.now }
{
    names.iter().any(|o| o.is(name))
}
