// Writing a message into a lent output.
ghost use Rattle.std.specs.Prelude.{◌≡◌, ◌+◌, ◌≤◌, [], ◌∷◌, ◌++◌, length};
ghost use Rattle.basis.specs.Bytes.{be};
ghost use Rattle.basis.specs.Refusals.{told};
ghost use Rattle.messages.specs.Writing.{on_sheet, written, body, tag_of, body_length, shape_of_message, write_answer, write_output};

use crate::message::Message;
use crate::read::body_len;
use basis::refusal::{Reason, Refusal};
use sheets::kinds::Takings;
use sheets::sheet::Sheet;

// How many bytes stand before the body: the tag and the length.
pub const HEAD: usize = 3;

// How many bytes a sheet message of takings has: its head, its slot and its sheet.
pub const TAKINGS_MESSAGE: usize = HEAD + 1 + <Takings as Sheet>::LEN;

impl<S: Sheet> Message<S> {
    // How many bytes the message is written in.
    pub fn written_len(&self) -> usize
        ensures { result ≡ length (written (on_sheet S.Sheet.bytes self.now)) }
    {
        HEAD + body_len::<S>(self.kind().shape())
    }

    // Writes the message at the start of the output and answers its length; the other bytes stay. Refused where the
    // output is too short, which then stays as it was.
    pub fn write(&self, out: &mut [u8]) -> Result<usize, Refusal>
        ensures answer { told result ≡ write_answer (written (on_sheet S.Sheet.bytes self.now)) out.old }
        ensures output { out.new ≡ write_output (written (on_sheet S.Sheet.bytes self.now)) out.old }
    {
        let len = self.written_len();
        if out.len() < len {
            return Err(Reason::OutputTooShort.at(0));
        }
        let [high, low] = ((len - HEAD) as u16).to_be_bytes();
        out[0] = self.tag();
        out[1] = high;
        out[2] = low;
        out[3] = self.slot();
        match self {
            Message::Sheet { sheet, .. } => sheet.encode(&mut out[4..]),
            _ => {
                out[4] = self.round();
                out[5] = self.value();
            }
        }
        Ok(len)
    }
}
