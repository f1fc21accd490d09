// Which form a line has.
ghost use Rattle.std.specs.Prelude.{◌≡◌, ◌+◌, Ok, Err, MatchResult};
ghost use Rattle.pf_lines.specs.Ranges.{ranged_numbers};
ghost use Rattle.pf_lines.specs.Shapes.{found_in};

use crate::fields::{Numbers, numbers_from};
use crate::forms::LineForm;
use crate::lines::TextLine;
use crate::numbers::Bad;
use std::alloc::Global;

/// The form of a line, by its place in the table, and the line's numbers.
#[derive(Drop)]
pub struct FoundForm {
    pub form: usize,
    pub is_counted: bool,
    pub numbers: Numbers,
}

// The numbers of a line that has this form.
fn form_numbers(alloc: Global, form: &LineForm, line: &TextLine<'_>) -> Result<Numbers, Bad>
    ensures { let exact = ranged_numbers form.now.patterns line.now.fields in
        MatchResult result (λ numbers. exact ≡ Ok numbers.items) (λ bad. exact ≡ Err bad) }
{
    numbers_from(alloc, line, 0, form.patterns())
}

/// The first form of the table that the line has, and its numbers, each in its range.
pub fn find_form(alloc: Global, forms: &[LineForm], line: &TextLine<'_>) -> Result<FoundForm, Bad>
    ensures { let exact = found_in 0 forms.now line.now.fields in
        MatchResult result
        (λ found. exact ≡ Ok (record { form = found.form; is_counted = found.is_counted; numbers = found.numbers.items }))
        (λ bad. exact ≡ Err bad) }
{
    'forms: for i in 0..forms.len() {
        match form_numbers(alloc, &forms[i], line) {
            Ok(numbers) => {
                return Ok(FoundForm {
                    form: i,
                    is_counted: forms[i].is_counted(),
                    numbers,
                });
            }
            Err(Bad::OutOfRange) => return Err(Bad::OutOfRange),
            Err(Bad::NotNumber) => {}
        }
    }
    Err(Bad::NotNumber)
}
