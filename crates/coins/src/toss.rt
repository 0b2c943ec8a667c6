// One toss of the share coin: the shares of one ballot and round, and the bit that they show.
ghost use Rattle.std.specs.Prelude.{◌≡◌, ◌^◌, ◌<◌, slice_set};
ghost use Rattle.std.specs.Int.Bits.{bit_or};
ghost use Rattle.basis.specs.Refusals.{numbered};
ghost use Rattle.coins.specs.Coins.{answer_by, left_by, Sender};
ghost use Rattle.coins.specs.Tosses.{toss_new, taken_from, held_of, toss_bit, recorded, looked, toss_taken};

use basis::heard::Heard;
use basis::member::Member;
use basis::refusal::Reason;
use basis::replicas::{ReplicaSet, contains, with};
use polynomials::search::shown_bit;

// The senders whose shares are taken, these shares, the own share, and the bit that is shown. The senders are a mask, as
// the specification fixes it for all sets of replicas: the search counts its ones, and reads the shares beside it.
#[derive(Clone, Copy)]
pub struct Toss {
    pub taken: ReplicaSet,
    pub shares: [u8; 16],
    pub own: u8,
    pub shown: Option<bool>,
}

impl Toss {
    // A toss of which nothing is taken, with its own share modulo 251.
    pub fn new(share: u8) -> Toss
        ensures { result ≡ toss_new share }
    {
        Toss {
            taken: 0,
            shares: [0; 16],
            own: share % 251,
            shown: None,
        }
    }

    // The share taken of a sender.
    pub fn taken_of(&self, sender: u8) -> Option<u8>
        requires { Sender sender }
        ensures { result ≡ taken_from self.now sender }
    {
        contains(self.taken, sender).then_some(self.shares[usize::from(sender)])
    }

    // The replicas whose shares are held.
    fn held(&self, own: u8) -> ReplicaSet
        requires { own < 16 }
        ensures { result ≡ held_of own self.now }
    {
        with(self.taken, own)
    }

    // The held shares, with the own one at the own point.
    fn held_shares(&self, own: u8) -> [u8; 16]
        requires { own < 16 }
        ensures { result ≡ slice_set self.now.shares own self.now.own }
    {
        let mut shares = self.shares;
        shares[usize::from(own)] = self.own;
        shares
    }

    // The bit that the held shares show.
    fn search(&self, member: Member) -> Option<bool>
        ensures { result ≡ toss_bit member.n member.own self.now }
    {
        shown_bit(
            member.n,
            self.held(member.own),
            &self.held_shares(member.own),
        )
    }

    // Records a share.
    fn record_share(&mut self, sender: u8, value: u8)
        requires { Sender sender }
        ensures { self.new ≡ recorded self.old sender value }
    {
        self.taken = with(self.taken, sender);
        self.shares[usize::from(sender)] = value;
    }

    // Looks for a bit, if none is shown yet.
    fn look(&mut self, member: Member)
        ensures { self.new ≡ looked member.n member.own self.old }
    {
        self.shown = self.shown.or_else(|| self.search(member));
    }

    // Takes a share: new, known, or refused where another share of the sender is taken.
    // Kept whole: inlined into some callers its search is slower by more than a tenth.
    #[inline(never)]
    pub fn take(&mut self, member: Member, sender: u8, value: u8) -> Result<Heard, Reason>
        requires { Sender sender }
        ensures answer { numbered result ≡ answer_by (taken_from self.old sender) value }
        ensures left { self.new ≡ left_by (taken_from self.old sender) (toss_taken member.n member.own self.old sender value) self.old }
    {
        match self.taken_of(sender) {
            None => {
                self.record_share(sender, value);
                self.look(member);
                Ok(Heard::New)
            }
            Some(known) if known == value => Ok(Heard::Known),
            Some(_) => Err(Reason::Contradiction),
        }
    }
}
