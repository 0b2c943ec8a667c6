// A round of the one-shot rule at replica 0 of four.
use crate::one_shot::{FINAL, OneShot, OneShotRound};
use basis::member::Member;
use messages::message::BitSet;
use rules::cast_vote::CastVote;
use rules::rule::Rule;
use std::test::Fail;

// A vote of replica 2 for 1.
fn vote(tag: u8) -> CastVote {
    CastVote {
        tag,
        bits: BitSet::One,
        sender: 2,
    }
}

#[test]
fn one_shot_says_both_votes(rt: HostRuntime) -> Result<(), Fail> {
    let member = Member::new(4, 0)?;
    let mut row = OneShotRound {
        entered: None,
        masks: [0; 48],
        verdict: None,
    };
    OneShot::enter(&mut row, member, true);
    let own = CastVote {
        tag: FINAL,
        bits: BitSet::One,
        sender: 0,
    };
    assert!(rt; OneShot::has_recorded(&row, own));
    assert!(rt; !OneShot::has_recorded(&row, vote(FINAL)));
    OneShot::take_steps(&mut row, member);
    assert!(rt; OneShot::verdict(&row).is_none());
    Ok(())
}
