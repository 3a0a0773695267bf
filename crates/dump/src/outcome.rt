// The text of a reader that has taken its bytes.
ghost use Rattle.std.specs.Prelude.{◌≡◌};
ghost use Rattle.text.specs.Text.{put};
ghost use Rattle.dump.specs.Outcome.{ending_of, finish_text, dumped_by};

use crate::{write_picture, write_refusal};
use colours::Palette;
use dcs::Ending;
use frame::Refusal;
use payload::Report;
use pieces::{Counts, Reader, Standing};

#[tactic(auto, unfolding(crate::specs::Outcome::ending_of))]
fn ending_of(standing: Standing) -> Ending
    ensures { result ≡ ending_of standing }
{
    match standing {
        Standing::Ended(ending) => ending,
        Standing::Reading | Standing::Refused(_) => Ending::Complete,
    }
}

#[tactic(auto, unfolding(crate::specs::Outcome::finish_text))]
fn write_finish(
    out: &mut [u8],
    finishing: Result<Report, Refusal>,
    ending: Ending,
    counts: Counts,
    stride: usize,
    canvas: &[u8],
) -> usize
    ensures { (result, out.new) ≡ put (finish_text finishing ending counts stride canvas.now) (0, out.old) }
{
    match finishing {
        Ok(report) => {
            write_picture(
                out,
                ending,
                counts.consumed,
                counts.ink,
                report,
                stride,
                canvas,
            )
        }
        Err(refusal) => write_refusal(out, refusal),
    }
}

// Finishes a reader on its canvas, writes the text at the front of `out`, and answers the text's length there.
#[tactic(auto, using(crate::proofs::OutcomeLaws::outcome_put))]
pub fn write_outcome(
    out: &mut [u8],
    reader: Reader,
    owner: Palette,
    stride: usize,
    canvas: &mut [u8],
) -> usize
    ensures { ((result, out.new), canvas.new) ≡ dumped_by reader owner stride canvas.old out.old }
{
    let ending = ending_of(pieces::standing_of(reader));
    let counts = pieces::counts_of(reader);
    let finished = pieces::finish(reader, owner, canvas);
    write_finish(out, finished.answer, ending, counts, stride, canvas)
}
