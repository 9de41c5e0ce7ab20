// The static library for C and Rust: each export is the call of `chorvadhim` with its name and its clauses.
#![tactic(auto)]

ghost use Rattle.chorvadhim.specs.Promise.{StringToFormWord, MatrixToFormWord, FrameToFormWord, ReadFormWord, CompareWord, StringToMatrixWord, FrameToMatrixWord, MatrixToFrameWord};

#[unsafe(no_mangle)]
pub extern "C" fn chorvadhim_string_to_form(text: &[u8], buffer: &mut [u8]) -> u64
    ensures { StringToFormWord text.now buffer.old result buffer.new }
{
    chorvadhim::chorvadhim_string_to_form(text, buffer)
}

#[unsafe(no_mangle)]
pub extern "C" fn chorvadhim_matrix_to_form(
    exponent: u32,
    coefficients: &[i64; 16],
    buffer: &mut [u8],
) -> u64
    ensures { MatrixToFormWord exponent coefficients.now buffer.old result buffer.new }
{
    chorvadhim::chorvadhim_matrix_to_form(exponent, coefficients, buffer)
}

#[unsafe(no_mangle)]
pub extern "C" fn chorvadhim_frame_to_form(text: &[u8], buffer: &mut [u8]) -> u64
    ensures { FrameToFormWord text.now buffer.old result buffer.new }
{
    chorvadhim::chorvadhim_frame_to_form(text, buffer)
}

#[unsafe(no_mangle)]
pub extern "C" fn chorvadhim_read_form(text: &[u8]) -> u64
    ensures { ReadFormWord text.now result }
{
    chorvadhim::chorvadhim_read_form(text)
}

#[unsafe(no_mangle)]
pub extern "C" fn chorvadhim_compare(first: &[u8], second: &[u8]) -> u64
    ensures { CompareWord first.now second.now result }
{
    chorvadhim::chorvadhim_compare(first, second)
}

#[unsafe(no_mangle)]
pub extern "C" fn chorvadhim_string_to_matrix(text: &[u8], coefficients: &mut [i64; 16]) -> u64
    ensures { StringToMatrixWord text.now coefficients.old result coefficients.new }
{
    chorvadhim::chorvadhim_string_to_matrix(text, coefficients)
}

#[unsafe(no_mangle)]
pub extern "C" fn chorvadhim_frame_to_matrix(text: &[u8], coefficients: &mut [i64; 16]) -> u64
    ensures { FrameToMatrixWord text.now coefficients.old result coefficients.new }
{
    chorvadhim::chorvadhim_frame_to_matrix(text, coefficients)
}

#[unsafe(no_mangle)]
pub extern "C" fn chorvadhim_matrix_to_frame(
    exponent: u32,
    coefficients: &[i64; 16],
    buffer: &mut [u8],
) -> u64
    ensures { MatrixToFrameWord exponent coefficients.now buffer.old result buffer.new }
{
    chorvadhim::chorvadhim_matrix_to_frame(exponent, coefficients, buffer)
}
