// What every coin does: it shows bits, and takes shares if it uses any.
ghost use Rattle.std.specs.Prelude.{◌≡◌};
ghost use Rattle.basis.specs.Refusals.{numbered};
ghost use Rattle.coins.specs.Coins.{Acts, Keeps, Sender, Lawful, take_answer, take_after};

use crate::share::Share;
use crate::tossed_round::TossedRound;
use basis::heard::Heard;
use basis::refusal::Reason;

// A coin shows at most one bit for each ballot and each round from 1 to 15. Asking it changes nothing. Senders are numbers
// below 16, said in one short clause: a type of them would be made and taken apart at each mask.
pub trait Coin {
    // What its calls come to.
    ghost acts: { Acts Self };

    // Whether it uses shares.
    fn uses_shares() -> bool
        ensures { result ≡ acts.uses };

    // The bit that it shows.
    fn bit(&self, at: TossedRound) -> Option<bool>
        ensures { result ≡ acts.shown self.now at.ballot at.round };

    // Its own share, if it has own shares.
    fn own_share(&self, at: TossedRound) -> Option<u8>
        ensures { result ≡ acts.own self.now at.ballot at.round };

    // The share taken of a sender.
    fn share_of(&self, at: TossedRound, sender: u8) -> Option<u8>
        requires { Sender sender }
        ensures { result ≡ acts.taken_of self.now at.ballot at.round sender };

    // Takes a share: new, known, or refused where another share of that sender was taken for that ballot and round. A coin
    // that uses no shares is not asked to; what it does all the same is what its calls come to.
    fn take(&mut self, share: Share) -> Result<Heard, Reason>
        requires { Lawful share }
        ensures answer { numbered result ≡ take_answer acts self.old share }
        ensures left { self.new ≡ take_after acts self.old share };

    // What every coin keeps.
    ghost keeps: { Keeps acts };
}
