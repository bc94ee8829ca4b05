ghost use Rattle.std.specs.Prelude.{◌≡◌, ℕ, ◌≤◌, List, Some, Ok, map};
ghost use Rattle.std.specs.String.{string_bytes};
ghost use Rattle.frame_head.specs.declared.codecs.Codec.{Codec};
ghost use Rattle.relay_words.specs.Orders.{order};
ghost use Rattle.relay_words.specs.declared.faults.UsageKind.{UsageKind};
ghost use Rattle.relay_words.specs.declared.faults.WordFault.{WordFault};
ghost use Rattle.relay_words.specs.declared.order.Order.{Order};
ghost use Rattle.relay_app.specs.Framing.{framing};
ghost use Rattle.relay_app.specs.Orders.{Refuses, refusal_of};
ghost use Rattle.relay_app.specs.Runs.{Answers, RunsInput};

use crate::framing::frames;
use crate::status::Status;
use relay_ports::Host;
use relay_words::{Order, UsageKind, WordFault, read_words};
use std::alloc::Global;

// The command is good, and can't run yet.
const NOT_BUILT: Status = Status::Usage {
    word: 0,
    kind: UsageKind::NotBuilt,
};

/// Does what the words ask for: `frames` cuts its input into frames, and writes a line for each to the report.
///
/// Of words that aren't in the grammar it answers `Usage` with the first bad one, and of a good command that can't
/// run yet `Usage` with the kind `NotBuilt`; the host is then as it was. Where the words' memory is refused it answers
/// `Memory`, and the host is as it was too. Reading the words is linear in them.
pub fn run_plain<H: Host>(alloc: Global, host: &mut H, words: &[String]) -> Status
    ensures usage { (word : ℕ) (kind : UsageKind) → result ≡ Status.Usage word kind
        → refusal_of (order (map (λ w. string_bytes w) words.now)) ≡ Some (WordFault.Usage word kind) }
    ensures untouched { (word : ℕ) (kind : UsageKind)
        → refusal_of (order (map (λ w. string_bytes w) words.now)) ≡ Some (WordFault.Usage word kind)
        → Refuses word kind host.old host.new result }
    ensures frames { (codec : Codec) (block limit : ℕ) (input : List ℕ)
        → order (map (λ w. string_bytes w) words.now) ≡ Ok (Order.Frames codec block limit input)
        → RunsInput (Answers (framing codec)) input limit (H.state host.old) (H.state host.new) result }
    ensures report_faults { (H.state host.old).report.faults ≤ (H.state host.new).report.faults }
{
    let order = match read_words(alloc, words) {
        Ok(order) => order,
        Err(WordFault::Usage { word, kind }) => return Status::Usage { word, kind },
        Err(WordFault::NoMemory) => return Status::Memory,
    };
    match order {
        Order::Frames {
            codec,
            block,
            limit,
            input,
        } => frames(alloc, host, codec, input.as_str(), block, limit),
        Order::Chain { .. } | Order::Relay { .. } | Order::Mill { .. } => NOT_BUILT,
    }
}
