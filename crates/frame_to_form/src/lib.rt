// Frame to form: the record of a frame, and its form.
#![tactic(auto)]

ghost use Rattle.answer.specs.Refusal.{said};
ghost use Rattle.frame_to_form.specs.Promise.{FrameToForm};

use answer::{Figures, Refusal};

#[tactic(auto, using(crate::proofs::Record::refused_too, crate::proofs::Record::record_judged, crate::proofs::Record::form_too))]
pub fn frame_to_form(text: &[u8], buffer: &mut [u8]) -> Result<Figures, Refusal>
    ensures { FrameToForm text.now buffer.old (said result) buffer.new }
{
    let record = frame::frame_to_matrix(text)?;
    accepted_to_form::accepted_to_form(record, buffer)
}
