// The closing record.
ghost use Rattle.std.specs.Prelude.{◌≡◌, ◌+◌, ◌≤◌, ◌++◌, length, drop};
ghost use Rattle.basis.specs.Refusals.{told};
ghost use Rattle.messages.specs.Writing.{write_answer, write_output};
ghost use Rattle.outcomes.specs.Tables.{viewed};
ghost use Rattle.outcomes.specs.Closing.{sheet_field, sheets_listed, listed_set, head_field, sheet_fields, closing_record, record_answer, record_output};
ghost use Rattle.closing.specs.Telling.{over};
ghost use Rattle.closing.specs.RecordLength.{RecordLength};

use crate::view::ClosingView;
use basis::member::Member;
use basis::refusal::{Reason, Refusal};
use basis::replicas::{ReplicaSet, set_bytes, with};
use broadcast::calls::are_large_enough;
use outcomes::opening_record::OpeningRecord;
use sheets::sheet::Sheet;

// The tags of the first field and of a sheet's field.
const HEAD_TAG: u8 = 0x40;

const SHEET_TAG: u8 = 0x41;

// How many bytes the first field has.
const HEAD_LEN: usize = 7;

// How many bytes the field of a sheet has.
fn field_len<S: Sheet>() -> usize
    ensures { result ≡ S.Sheet.LEN + 4 }
{
    S::LEN + 4
}

// Writes the field of a listed replica.
fn write_field<S: Sheet>(out: &mut [u8], replica: u8, sheet: &S)
    requires { length out.old ≡ S.Sheet.LEN + 4 }
    ensures { out.new ≡ sheet_field S.Sheet.LEN replica (S.Sheet.bytes sheet.now) }
{
    let [high, low] = ((S::LEN + 1) as u16).to_be_bytes();
    let (head, body) = out.split_at_mut(4);
    head.copy_from_slice(&[SHEET_TAG, high, low, replica]);
    sheet.encode(body);
}

impl<S: Sheet> ClosingView<'_, S> {
    // The set of the listed replicas.
    fn listed_set(&self) -> ReplicaSet
        ensures { result ≡ listed_set S.Sheet.rows self.now.member.n (viewed self.now.records.now self.now.rounds self.now.places.now) }
    {
        let mut members = 0;
        for replica in 0..self.member.n {
            if self.is_listed(replica) {
                members = with(members, replica);
            }
        }
        members
    }

    // How many replicas are listed.
    #[tactic(auto, using(basis::proofs::Counts::count_yes, basis::proofs::Counts::count_no), unfolding(basis::specs::Counts::count))]
    fn count_listed(&self) -> usize
        ensures value { result ≡ sheets_listed S.Sheet.rows self.now.member.n (viewed self.now.records.now self.now.rounds self.now.places.now) }
        ensures few { result ≤ 16 }
    {
        let mut many = 0;
        for replica in 0..self.member.n {
            if self.is_listed(replica) {
                many += 1;
            }
        }
        many
    }

    // Writes the first field.
    fn write_head(&self, out: &mut [u8])
        requires { length out.old ≡ 7 }
        ensures { out.new ≡ head_field S.Sheet.rows self.now.member.n (viewed self.now.records.now self.now.rounds self.now.places.now) S.Sheet.LEN S.Sheet.KIND }
    {
        let [high, low] = set_bytes(self.listed_set());
        out.copy_from_slice(&[HEAD_TAG, 0, 4, S::KIND, self.member.n, high, low]);
    }

    // Writes the fields of the listed replicas at the start of the output, rising.
    fn write_fields(&self, out: &mut [u8])
        requires { length (sheet_fields S.Sheet.rows self.now.member.n (viewed self.now.records.now self.now.rounds self.now.places.now) S.Sheet.LEN S.Sheet.KIND self.now.member.n) ≤ length out.old }
        ensures { out.new ≡ over (sheet_fields S.Sheet.rows self.now.member.n (viewed self.now.records.now self.now.rounds self.now.places.now) S.Sheet.LEN S.Sheet.KIND self.now.member.n) out.old }
    {
        let mut at = 0;
        for replica in 0..self.member.n {
            if let Some(sheet) = self.listed_sheet(replica) {
                let end = at + field_len::<S>();
                write_field(&mut out[at..end], replica, &sheet);
                at = end;
            }
        }
    }

    // How long the record is.
    fn record_len(&self) -> usize
        ensures { result ≡ length (closing_record S.Sheet.rows self.now.member.n (viewed self.now.records.now self.now.rounds self.now.places.now) S.Sheet.LEN S.Sheet.KIND) }
    {
        HEAD_LEN + field_len::<S>() * self.count_listed()
    }

    // Writes the record at the start of the output and answers its length; the other bytes stay. Refused where the
    // output is too short, which then stays as it was.
    fn write(&self, out: &mut [u8]) -> Result<usize, Refusal>
        ensures answer { told result ≡ write_answer (closing_record S.Sheet.rows self.now.member.n (viewed self.now.records.now self.now.rounds self.now.places.now) S.Sheet.LEN S.Sheet.KIND) out.old }
        ensures output { out.new ≡ write_output (closing_record S.Sheet.rows self.now.member.n (viewed self.now.records.now self.now.rounds self.now.places.now) S.Sheet.LEN S.Sheet.KIND) out.old }
    {
        let len = self.record_len();
        if out.len() < len {
            return Err(Reason::OutputTooShort.at(0));
        }
        let (head, fields) = out.split_at_mut(HEAD_LEN);
        self.write_head(head);
        self.write_fields(fields);
        Ok(len)
    }
}

// Writes the closing record of a replica and answers its length.
pub fn write_record<S: Sheet>(
    member: Member,
    records: &[OpeningRecord],
    rounds: usize,
    places: &[S::Row],
    out: &mut [u8],
) -> Result<usize, Refusal>
    ensures answer { told result ≡ record_answer S.Sheet.rows member.n (viewed records.now rounds places.now) S.Sheet.LEN S.Sheet.KIND out.old }
    ensures output { out.new ≡ record_output S.Sheet.rows member.n (viewed records.now rounds places.now) S.Sheet.LEN S.Sheet.KIND out.old }
    ensures law { RecordLength S.Sheet.rows S.Sheet.LEN }
{
    if !are_large_enough(member.n, records.len(), rounds, places.len()) {
        return Err(Reason::TablesTooSmall.at(0));
    }
    let view = ClosingView::<S> {
        member,
        records,
        rounds,
        places,
    };
    view.write(out)
}
