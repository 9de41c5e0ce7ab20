// Matrix to form: a record is judged, and an accepted one gets its form.
#![tactic(auto)]

ghost use Rattle.answer.specs.Refusal.{said};
ghost use Rattle.matrix_to_form.specs.Promise.{MatrixToForm};

use answer::{Figures, Refusal};
use matrix::Matrix;

pub fn matrix_to_form(record: Matrix, buffer: &mut [u8]) -> Result<Figures, Refusal>
    ensures { MatrixToForm «record» buffer.old (said result) buffer.new }
{
    accept_record::judge(record)?;
    accepted_to_form::accepted_to_form(record, buffer)
}
