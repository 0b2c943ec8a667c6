// The trait of round rules. A rule runs one later round of a ballot at one replica, up to its verdict.
ghost use Rattle.std.specs.Prelude.{◌≡◌, ℕ};
ghost use Rattle.basis.specs.Refusals.{numbered};
ghost use Rattle.rules.specs.Rounds.{Round, cleared, vote_of, bit_set, set_if_any, recorded, hear_answer};
ghost use Rattle.rules.specs.Laws.{Acts, Audible, heard, Keeps};

use crate::cast_vote::CastVote;
use basis::heard::Heard;
use basis::member::Member;
use basis::refusal::Reason;
use messages::message::BitSet;
use messages::tags::VoteTags;

// A record is the rule's own plain struct for one round; it is lent to each call and changed in place. Its meaning says
// what the calls did; what a call leaves and answers follows from that, the replica's two numbers and the call alone.
pub trait Rule {
    type Record;

    ghost meaning: { Self.Record → Round };

    ghost acts: { Acts };

    // The tags of the rule's votes.
    fn tags() -> VoteTags
        ensures { result ≡ acts.tags };

    // Makes the round one that was neither entered nor voted in.
    fn clear(row: &mut Self::Record)
        ensures { meaning row.new ≡ cleared };

    // Enters the round with a bit.
    fn enter(row: &mut Self::Record, member: Member, bit: bool)
        ensures { meaning row.new ≡ acts.enter member.n member.own (bit_set bit) (meaning row.old) };

    // Hears a vote of another replica: it is new, or known, or contradicts a recorded one. Only a new one changes anything.
    fn hear(row: &mut Self::Record, member: Member, vote: CastVote) -> Result<Heard, Reason>
        requires { Audible acts.tags member.n member.own (vote_of vote) }
        ensures answer { numbered result ≡ hear_answer (vote_of vote) (meaning row.old) }
        ensures left { meaning row.new ≡ heard acts member.n member.own (vote_of vote) (meaning row.old) };

    // Takes all steps that apply.
    fn take_steps(row: &mut Self::Record, member: Member)
        ensures { meaning row.new ≡ acts.steps member.n member.own (meaning row.old) };

    // The verdict, if there is one.
    fn verdict(row: &Self::Record) -> Option<BitSet>
        ensures { set_if_any result ≡ (meaning row.now).verdict };

    // Whether a vote is recorded; under the own number, whether the replica has said it.
    fn has_recorded(row: &Self::Record, vote: CastVote) -> bool
        ensures { result ≡ recorded (vote_of vote) (meaning row.now) };

    ghost keeps: { Keeps acts };
}
