// The report: a line for each word, and a summary.
ghost use Rattle.std.specs.Prelude.{◌≡◌, ◌++◌, length, IfOk, OnOk, Some, string_bytes};
ghost use Rattle.leaves.specs.RateReading.{rate_of};
ghost use Rattle.rate_report.specs.Entries.{numbers_of, own_numbers};
ghost use Rattle.rate_report.specs.Report.{rates_of, number_in, verdict, line_with, lines, warning, summary_with, Reports};
ghost use Rattle.rate_report.specs.Words.{words};

use crate::counts::Counts;
use crate::limit::kept;
use crate::words::Words;
use leaves::Rate;
use recipe::{Leaf, leaf_number};
use std::alloc::{AllocError, Global};
use std::fmt::{self, Write};

// The most bytes of an input that are listed.
pub const LIMIT: usize = 65_536;

// The rates that the words of the text spell, in order.
fn rates_of(heap: Global, text: &[u8]) -> Result<Vec<Rate>, AllocError>
    ensures { IfOk result (λ v. v.items ≡ rates_of (words text.now)) }
{
    Words::new(text)
        .filter_map(|word| Rate::read(word))
        .collect(heap)
}

// The number of the rate that the word spells, if it spells one.
fn number_of(rates: &[Rate], word: &[u8]) -> Option<usize>
    ensures { result ≡ number_in rates.now (rate_of word.now) }
{
    Rate::read(word).and_then(|rate| leaf_number(rates, &rate))
}

// What is said of a word: the number of its rate, or that it spells none.
#[derive(Drop)]
struct Verdict(Option<usize>);

impl fmt::Display for Verdict {
    ghost output = { λ v. Some (verdict v.0) };

    fn fmt<W: fmt::Write>(&self, f: &mut fmt::Formatter<W>) -> fmt::Result {
        match self.0 {
            Some(number) => write!(f, " rate {number}"),
            None => f.write_str(" no rate"),
        }
    }
}

// A word, and the number of the rate that it spells, if it spells one.
#[derive(Drop)]
struct Entry<'t> {
    word: &'t [u8],
    number: Option<usize>,
}

impl<'t> Entry<'t> {
    // Adds the line of the word that has the index. What stands before and after the word is put together in `line`, whatever
    // that held before.
    fn add_line(&self, out: &mut Vec<u8>, line: &mut String, index: usize) -> Result<(), AllocError>
        ensures { OnOk result
            (out.new.items ≡ out.old.items ++ line_with self.now.number index self.now.word.now) }
    {
        let verdict = Verdict(self.number);
        line.clear();
        write!(line, "{index} ")?;
        out.extend_from_slice(line.as_bytes())?;
        out.extend_from_slice(self.word)?;
        line.clear();
        write!(line, "{verdict}\n")?;
        out.extend_from_slice(line.as_bytes())
    }
}

// The lines of words, one after the other, and what is counted of them.
#[derive(Drop)]
struct Listed {
    lines: Vec<u8>,
    counts: Counts,
}

// The lines of the words of the text, with the numbers of their rates among the given ones.
fn lines(heap: Global, text: &[u8], rates: &[Rate]) -> Result<Listed, AllocError>
    ensures lines { IfOk result (λ l. l.lines.items ≡ lines rates.now 0 (words text.now)) }
    ensures words { IfOk result (λ l. l.counts.words ≡ length (words text.now)) }
    ensures different { IfOk result (λ l. l.counts.different ≡ own_numbers (numbers_of rates.now (words text.now))) }
{
    let (mut out, mut line) = (Vec::new(heap), String::new(heap));
    let mut counts = Counts::new();
    for word in Words::new(text) {
        let number = number_of(rates, word);
        Entry { word, number }.add_line(&mut out, &mut line, counts.words)?;
        counts.add(number);
    }
    Ok(Listed { lines: out, counts })
}

// What is said of an input above the limit.
fn warning(heap: Global, input: &[u8]) -> Result<String, AllocError>
    ensures { IfOk result (λ s. string_bytes s ≡ warning LIMIT input.now) }
{
    if input.len() <= LIMIT {
        return Ok(String::new(heap));
    }
    format!(in heap; "too much input: only the whole words of the first {LIMIT} bytes are listed\n")
}

// The last line.
fn summary(heap: Global, words: usize, rates: usize, different: usize) -> Result<String, AllocError>
    ensures { IfOk result (λ s. string_bytes s ≡ summary_with words rates different) }
{
    format!(in heap; "words {words}, rates {rates}, different rates {different}\n")
}

// The report on the input.
pub fn report_on(heap: Global, input: &[u8]) -> Result<Vec<u8>, AllocError>
    ensures { IfOk result (λ v. Reports 65536 input.now v.items) }
{
    let text = kept(input, LIMIT);
    let rates = rates_of(heap, text)?;
    let Listed {
        lines: mut out,
        counts,
    } = lines(heap, text, &rates)?;
    let warning = warning(heap, input)?;
    out.extend_from_slice(warning.as_bytes())?;
    let summary = summary(heap, counts.words, rates.len(), counts.different)?;
    out.extend_from_slice(summary.as_bytes())?;
    Ok(out)
}
