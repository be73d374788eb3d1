// From the bytes of a picture file to the line of its survey.
#![tactic(auto)]

ghost use Rattle.std.specs.Prelude.{◌≡◌, drop, IfOk, string_bytes};
ghost use Rattle.refusal.specs.Answers.{answer};
ghost use Rattle.netpbm.specs.File.{IsPicture};
ghost use Rattle.netpbm.specs.Reading.{reading};
ghost use Rattle.report.specs.Line.{line_of};
ghost use Rattle.report.specs.Surveying.{plain_survey, after_header, surveying};

use carrier::Plain;
use netpbm::Header;
use refusal::Refusal;
use std::alloc::{AllocError, Global};
use tally::{Surveyed, survey};

// The longest input that is surveyed.
const LONGEST: usize = 65_536;

// Surveys the plain carrier of a picture.
fn survey_samples(file: &[u8], header: Header) -> Surveyed
    requires { IsPicture file.now header }
    ensures { result ≡ plain_survey header.maximum (drop header.length file.now) }
{
    let samples = &file[header.length..];
    let maximum = u8::try_from(header.maximum).unwrap();
    survey(&Plain::fitting(samples, maximum))
}

// Surveys the picture that a file holds.
fn survey_file(file: &[u8]) -> Result<Surveyed, Refusal>
    ensures { answer result ≡ after_header file.now (reading file.now) }
{
    let header = netpbm::read(file)?;
    Ok(survey_samples(file, header))
}

// Surveys the picture that the program's input holds, which may not be too long.
pub fn survey_input(input: &[u8]) -> Result<Surveyed, Refusal>
    ensures { answer result ≡ surveying input.now }
{
    if input.len() > LONGEST {
        return Err(Refusal::InputTooLong);
    }
    survey_file(input)
}

// The line that tells a survey's outcome.
pub fn line(heap: Global, outcome: Result<Surveyed, Refusal>) -> Result<String, AllocError>
    ensures { IfOk result (λ t. string_bytes t ≡ line_of (answer outcome)) }
{
    match outcome {
        Ok(found) => format!(in heap; "{found}\n"),
        Err(refusal) => format!(in heap; "{refusal}\n"),
    }
}

// The line for an input.
pub fn report(heap: Global, input: &[u8]) -> Result<String, AllocError>
    ensures { IfOk result (λ t. string_bytes t ≡ line_of (surveying input.now)) }
{
    line(heap, survey_input(input))
}

#[cfg(test)]
mod tests;
