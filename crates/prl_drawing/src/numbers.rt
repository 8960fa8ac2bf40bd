//! The numbers of jobs, in the windows that are wide enough for them.

use crate::rows::row_of;
use crate::shapes::Shape;
use crate::texts::push_all;
use std::alloc::AllocError;

/// How wide a digit is, in tenths of a pixel.
const DIGIT: u64 = 70;

/// How much of a window stays free of its number, at both ends together.
const FREE: u64 = 100;

/// The least numbers of two digits, of three digits, and so on.
static TENS: [u64; 9] = [
    10,
    100,
    1_000,
    10_000,
    100_000,
    1_000_000,
    10_000_000,
    100_000_000,
    1_000_000_000,
];

/// How wide a number is.
fn width_of(number: u64) -> u64 {
    let mut width = DIGIT;
    for ten in TENS {
        if number >= ten {
            width = width.saturating_add(DIGIT);
        }
    }
    width
}

/// Appends the number of a job in the middle of its window, where that is wide enough to read it.
fn push_number(text: &mut Vec<u8>, shape: &Shape) -> Result<(), AllocError> {
    let width = shape.right.saturating_sub(shape.left);
    if width < width_of(shape.job).saturating_add(FREE) {
        return Ok(());
    }
    let attributes = [
        (
            "<text class=\"j\" x=\"",
            shape.left.saturating_add(width / 2),
        ),
        ("\" y=\"", row_of(shape.row) + 165),
        ("\">", shape.job),
    ];
    push_all(text, &attributes, "</text>\n")
}

/// Appends the numbers of the jobs, over all else.
pub fn push_numbers(text: &mut Vec<u8>, shapes: &[Shape]) -> Result<(), AllocError> {
    for shape in shapes {
        push_number(text, shape)?;
    }
    Ok(())
}
