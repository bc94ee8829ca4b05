//! What holds handed back comes home.
ghost use Rattle.std.specs.Prelude.{◌≡◌, []};
ghost use Rattle.piece_book.specs.Owing.{MayComeHome, ComesHome, MayAllComeHome, AllComeHome, KnowsSame, OutsAlone};

use crate::book::PieceBook;
use relay_ports::Host;
use storage::{Back, Returns};

impl PieceBook {
    /// A value that a hold handed back comes home: its receipt is joined to those of its number, and a lent block that
    /// it carries goes back to the host, which has it out. O(known), and no memory.
    pub fn take_in<H: Host>(&mut self, host: &mut H, back: Back)
        requires { MayComeHome self.old (H.state host.old).lent back }
        ensures owes { ComesHome self.old (H.state host.old).lent back self.new (H.state host.new).lent }
        ensures host { OutsAlone (H.state host.old) (H.state host.new) }
        ensures knows { KnowsSame self.old self.new }
    {
        match back {
            Back::Kept(receipt) => self.add(receipt),
            Back::Lent(block, receipt) => {
                self.add(receipt);
                host.take_back(block);
            }
            Back::Nothing => (),
            Back::Done(_) => unreachable!(),
            Back::Ran(_, _) => unreachable!(),
            Back::Tag(_, _) => unreachable!(),
        }
    }

    /// All of them come home, one after another.
    pub fn settle<H: Host>(&mut self, host: &mut H, returns: &mut Returns)
        requires { MayAllComeHome self.old (H.state host.old).lent returns.old }
        ensures owes { AllComeHome self.old (H.state host.old).lent returns.old self.new (H.state host.new).lent }
        ensures host { OutsAlone (H.state host.old) (H.state host.new) }
        ensures knows { KnowsSame self.old self.new }
        ensures none { returns.new ≡ [] }
    {
        'backs: while let Some(back) = returns.pop() {
            self.take_in(host, back);
        }
    }
}
