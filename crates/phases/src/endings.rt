// What a round of four replicas comes to under either rule, and by each tag.
use crate::phased::{ThreePhase, TwoPhase};
use crate::round::PhasedRound;
use crate::vote_phase::VotePhase;
use basis::member::Member;
use messages::message::BitSet;
use rules::cast_vote::CastVote;
use rules::rule::Rule;
use std::test::Fail;

// Replica 0 of four.
fn first_of_four() -> Result<Member, Fail> {
    Ok(Member::new(4, 0)?)
}

// Hears a vote for 1 under a tag from replicas 1 and 2.
fn hear_two(round: &mut PhasedRound, tag: u8) {
    for sender in 1..3 {
        let _ = round.hear_vote(CastVote {
            tag,
            bits: BitSet::One,
            sender,
        });
    }
}

// A round that was entered with 1, with first and second votes for 1 of replicas 1 and 2.
fn voted_in(member: Member) -> PhasedRound {
    let mut round = PhasedRound::default();
    round.enter_with(member, true);
    hear_two(&mut round, 0x20);
    hear_two(&mut round, 0x21);
    round
}

// The verdict once all steps are taken that apply.
fn verdict_of<R: Rule>(row: &mut R::Record, member: Member) -> Option<BitSet> {
    R::take_steps(row, member);
    R::verdict(row)
}

// Whether replica 0 has said a vote for 1 under a tag.
fn has_said<R: Rule>(row: &R::Record, tag: u8) -> bool {
    R::has_recorded(
        row,
        CastVote {
            tag,
            bits: BitSet::One,
            sender: 0,
        },
    )
}

#[test]
fn two_phases_end_by_second_votes(rt: HostRuntime) -> Result<(), Fail> {
    let member = first_of_four()?;
    let mut round = voted_in(member);
    assert_eq!(rt;
        verdict_of::<TwoPhase>(&mut round, member),
        Some(BitSet::One)
    );
    assert!(rt; has_said::<TwoPhase>(&round, 0x21));
    assert!(rt; !has_said::<TwoPhase>(&round, 0x22));
    Ok(())
}

#[test]
fn three_phases_end_by_third_votes(rt: HostRuntime) -> Result<(), Fail> {
    let member = first_of_four()?;
    let mut round = voted_in(member);
    assert_eq!(rt; verdict_of::<ThreePhase>(&mut round, member), None);
    assert!(rt; has_said::<ThreePhase>(&round, 0x22));
    hear_two(&mut round, 0x22);
    assert_eq!(rt;
        verdict_of::<ThreePhase>(&mut round, member),
        Some(BitSet::One)
    );
    Ok(())
}

#[test]
fn tags_name_their_phases(rt: HostRuntime) -> Result<(), Fail> {
    assert_eq!(rt; VotePhase::try_from(0x22).ok(), Some(VotePhase::Third));
    assert_eq!(rt; VotePhase::try_from(0x23).ok(), None);
    Ok(())
}

// A round that was entered with 1, with votes for 1 of replicas 0 to 2 both as first votes and under a tag.
fn recorded_under(member: Member, tag: u8) -> PhasedRound {
    let mut round = PhasedRound::empty();
    round.enter_with(member, true);
    hear_two(&mut round, 0x20);
    for sender in 0..3 {
        round.record_vote(tag, BitSet::One, sender);
    }
    round
}

#[test]
fn votes_stand_under_the_tags_of_phases(rt: HostRuntime) -> Result<(), Fail> {
    let member = first_of_four()?;
    for (tag, votes, verdict) in [
        (0x20, 0b111, Some(BitSet::One)),
        (0x21, 0b111, Some(BitSet::One)),
        (0x22, 0b111, Some(BitSet::One)),
        (0x23, 0, None),
    ] {
        let mut round = recorded_under(member, tag);
        let any = verdict.is_some();
        assert_eq!(rt;
            round.has_vote(tag, BitSet::One, 2),
            any,
            "has_vote, tag {tag}"
        );
        assert_eq!(rt; round.has_voted(tag, 2), any, "has_voted, tag {tag}");
        assert_eq!(rt;
            round.count_votes(4, tag).one,
            votes,
            "count_votes, tag {tag}"
        );
        assert_eq!(rt; round.has_enough(4, tag), any, "has_enough, tag {tag}");
        assert_eq!(rt;
            round.union_under(4, tag),
            verdict,
            "union_under, tag {tag}"
        );
        assert_eq!(rt;
            round.may_conclude(member, tag),
            any,
            "may_conclude, tag {tag}"
        );
        round.take_verdict(member, tag);
        assert_eq!(rt; round.verdict, verdict, "take_verdict, tag {tag}");
    }
    Ok(())
}
