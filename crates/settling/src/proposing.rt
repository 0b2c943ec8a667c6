// Proposing: once in all ballots, when enough slots are delivered.
ghost use Rattle.std.specs.Prelude.{◌≡◌, ◌<◌, ◌≤◌, length, is_some, slice_index_or};
ghost use Rattle.basis.specs.Counts.{count};
ghost use Rattle.ballots.specs.Ballots.{reacted};
ghost use Rattle.ballots.specs.States.{ballot_meaning};
ghost use Rattle.ballots.specs.declared.ballot.Event.TheVariants.{Proposal};
ghost use Rattle.slots.specs.Steps.{cleared};
ghost use Rattle.outcomes.specs.Tables.{slots_in, ballots_in};
ghost use Rattle.settling.specs.Proposing.{proposal_due, proposed_ballots};

use ballots::ballot::Event;
use basis::hall::quorum_size;
use basis::member::Member;
use outcomes::opening_record::OpeningRecord;

// How many of the n slots are delivered.
pub fn count_deliveries(records: &[OpeningRecord], n: u8) -> usize
    requires { n ≤ length records.now }
    ensures { result ≡ count n (λ k. is_some (slice_index_or (slots_in records.now) k cleared).delivered) }
{
    records[..usize::from(n)]
        .iter()
        .filter(|row| row.slot.delivered.is_some())
        .count()
}

// Whether the replica proposes: nothing is proposed in the slot's ballot, and 2f + 1 slots are delivered.
pub fn may_propose(records: &[OpeningRecord], member: Member, slot: u8) -> bool
    requires slot { slot < member.n }
    requires records { member.n ≤ length records.now }
    ensures { result ≡ proposal_due member.n slot (slots_in records.now) (ballots_in records.now) }
{
    let proposed = records[usize::from(slot)].ballot.opening.entered.is_some();
    !proposed && count_deliveries(records, member.n) >= quorum_size(member.n) as usize
}

// Proposes in a slot's ballot: 1 if the slot is delivered, and else 0.
pub fn propose_in(row: &mut OpeningRecord, member: Member)
    ensures slot { row.new.slot ≡ row.old.slot }
    ensures ballot { ballot_meaning row.new.ballot ≡ reacted member.n member.own (Proposal (is_some row.old.slot.delivered)) (ballot_meaning row.old.ballot) }
{
    let bit = row.slot.delivered.is_some();
    let _ = row.ballot.react(member, Event::Proposal(bit));
}

// Proposes in all ballots.
pub fn propose_all(records: &mut [OpeningRecord], member: Member)
    requires { member.n ≤ length records.old }
    ensures slots { slots_in records.new ≡ slots_in records.old }
    ensures ballots { ballots_in records.new ≡ proposed_ballots member.n member.own member.n (slots_in records.old) (ballots_in records.old) }
{
    for slot in 0..member.n {
        propose_in(&mut records[usize::from(slot)], member);
    }
}
