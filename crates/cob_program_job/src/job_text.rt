ghost use Rattle.std.specs.Prelude.{◌≡◌, ◌<◌, ◌+◌, ◌∷◌, ℕ, List, [], true, false, length, codes, IfOk, IfErr, IfSome, IfNone, OnOk, IsOkAnd, IsSomeAnd, Some, ◌++◌};
ghost use Rattle.cob_source.specs.Lines.{lines, cut_return};
ghost use Rattle.cob_program_job.specs.Marks.{IsJobOf, IsNextLine, IsNoJob, IsOtherLine, IsFormMark, IsPartBefore, Parts, SaysForm, SaysSize, TakesFormMark, behind_line, first_line_of, is_part_end};
ghost use Rattle.cob_records.specs.declared.records.Form.{Form};
ghost use Rattle.cob_records.specs.Forms.{HasBlockSize};

use cob_limits::MAX_BLOCK;
use cob_records::{Form, block_size_of};
use cob_source::without_return;
use memchr::memchr;

/// The parts of a job: three texts, the form of the records on each side, and the digits of the input's data.
#[derive(Drop)]
pub struct JobText<'a> {
    pub in_form: Form,
    pub out_form: Form,
    pub in_book: &'a [u8],
    pub out_book: &'a [u8],
    pub moves: &'a [u8],
    pub digits: &'a [u8],
    /// The number of the data's first line, from 1.
    pub data_line: u32,
}

/// The lines of a text that are still to come.
#[derive(Clone, Copy)]
pub struct Lines<'a> {
    pub rest: &'a [u8],
    /// The number of the next line, from 1.
    pub number: u32,
}

/// A text's first line, without its end, and what follows it.
pub fn split_line(text: &[u8]) -> (&[u8], &[u8])
    requires { 0 < length text.now }
    ensures line { lines text.now ≡ result.0.now ∷ lines result.1.now }
    ensures shorter { length result.1.now < length text.now }
    ensures rest { result.1.now ≡ behind_line text.now }
{
    match memchr(b'\n', text) {
        Some(at) => (without_return(&text[..at]), &text[at + 1..]),
        None => (text, &[]),
    }
}

/// Whether a line is the wanted one.
fn is_line(line: &[u8], wanted: &[u8]) -> bool
    ensures yes { result ≡ true → line.now ≡ wanted.now }
    ensures must { line.now ≡ wanted.now → result ≡ true }
{
    *line == *wanted
}

/// What stands behind this front of a line, if it begins so.
fn behind_front<'a>(line: &'a [u8], front: &[u8]) -> Option<&'a [u8]>
    ensures found { IfSome result (λ rest. line.now ≡ front.now ++ rest.now) }
    ensures only { (rest : List ℕ) → line.now ≡ front.now ++ rest
        → IsSomeAnd result (λ got. got.now ≡ rest) }
{
    if line.len() < front.len() {
        return None;
    }
    let (start, rest) = line.split_at(front.len());
    if is_line(start, front) {
        Some(rest)
    } else {
        None
    }
}

/// The greatest size of blocks that stands behind the letter b and a space.
fn size_of(said: &[u8]) -> Option<u16>
    ensures found { IfSome result (SaysSize said.now) }
    ensures only { (most : ℕ) → SaysSize said.now most → result ≡ Some most }
{
    let word = behind_front(said, b"b ")?;
    block_size_of(word)
}

/// The form that these words say.
fn form_of(said: &[u8]) -> Option<Form>
    ensures found { IfSome result (λ form. SaysForm said.now form) }
    ensures only { (form : Form) → SaysForm said.now form → result ≡ Some form }
    ensures block { IfSome result HasBlockSize }
{
    if is_line(said, b"f") {
        return Some(Form::Fixed);
    }
    if is_line(said, b"v") {
        return Some(Form::Variable);
    }
    if is_line(said, b"b") {
        return Some(Form::Blocked(MAX_BLOCK));
    }
    match size_of(said) {
        Some(size) => Some(Form::Blocked(size)),
        None => None,
    }
}

/// The form that a mark with this front says.
fn form_of_mark(front: &[u8], line: &[u8]) -> Option<Form>
    ensures found { IfSome result (λ form. IsFormMark front.now form line.now) }
    ensures only { (form : Form) → IsFormMark front.now form line.now → result ≡ Some form }
    ensures block { IfSome result HasBlockSize }
{
    let said = behind_front(line, front)?;
    form_of(said)
}

/// Whether a part ends here: at a mark, or where the text does.
fn part_ends(text: &[u8]) -> bool
    ensures value { result ≡ is_part_end text.now }
    ensures some { result ≡ false → 0 < length text.now }
{
    match text.split_first() {
        Some((first, _)) => *first == b'=',
        None => true,
    }
}

impl<'a> Lines<'a> {
    /// Took the next line, if there is one.
    fn next(&mut self) -> Option<&'a [u8]>
        ensures some { IfSome result (λ line. IsNextLine self.old.rest.now self.old.number
            line.now self.new.rest.now self.new.number) }
        ensures none { IfNone result (self.old.rest.now ≡ []) }
    {
        if self.rest.is_empty() {
            return None;
        }
        let (line, rest) = split_line(self.rest);
        self.rest = rest;
        self.number = self.number.saturating_add(1);
        Some(line)
    }

    /// Took the lines up to the next mark, or to the end.
    fn part(&mut self) -> &'a [u8]
        ensures { IsPartBefore self.old.rest.now self.old.number
            result.now self.new.rest.now self.new.number }
    {
        let whole = self.rest;
        while !part_ends(self.rest) {
            let (_, rest) = split_line(self.rest);
            self.rest = rest;
            self.number = self.number.saturating_add(1);
        }
        &whole[..whole.len() - self.rest.len()]
    }

    /// Took a line that is to be a mark; where it is another, its number is the fault, and where none is left, 0.
    fn mark(&mut self, wanted: &[u8]) -> Result<(), u32>
        ensures ok { OnOk result (IsNextLine self.old.rest.now self.old.number
            wanted.now self.new.rest.now self.new.number) }
        ensures err { IfErr result (λ fault. IsOtherLine (λ line. line ≡ wanted.now)
            self.old.rest.now self.old.number fault) }
    {
        let number = self.number;
        match self.next() {
            None => Err(0),
            Some(line) if is_line(line, wanted) => Ok(()),
            Some(_) => Err(number),
        }
    }

    /// Took a mark that ends in a record form.
    fn form_mark(&mut self, front: &[u8]) -> Result<Form, u32>
        ensures ok { IfOk result (λ form. TakesFormMark front.now form self.old self.new) }
        ensures err { IfErr result (λ fault. IsOtherLine
            (λ line. (form : Form) × IsFormMark front.now form line)
            self.old.rest.now self.old.number fault) }
        ensures block { IfOk result HasBlockSize }
    {
        let number = self.number;
        match self.next() {
            None => Err(0),
            Some(line) => match form_of_mark(front, line) {
                Some(form) => Ok(form),
                None => Err(number),
            },
        }
    }
}

impl<'a> JobText<'a> {
    ghost use Rattle.cob_program_job.specs.Parts.{parts_of};

    /// Cuts a job at its marks. The fault is the number of the first bad line, or 0 where a mark lacks.
    pub fn read(text: &'a [u8]) -> Result<JobText<'a>, u32>
        ensures found { IfOk result (λ job. IsJobOf text.now (parts_of job)) }
        ensures number { IfOk result
            (λ job. job.data_line ≡ first_line_of text.now job.digits.now) }
        ensures only { (parts : Parts) → IsJobOf text.now parts
            → IsOkAnd result (λ job. parts_of job ≡ parts) }
        ensures refused { IfErr result (λ line. IsNoJob text.now line) }
        ensures blocks { IfOk result (λ job. HasBlockSize job.in_form × HasBlockSize job.out_form) }
    {
        let mut lines = Lines {
            rest: text,
            number: 1,
        };
        let in_form = lines.form_mark(b"=IN ")?;
        let in_book = lines.part();
        let out_form = lines.form_mark(b"=OUT ")?;
        let out_book = lines.part();
        lines.mark(b"=MOVE")?;
        let moves = lines.part();
        lines.mark(b"=DATA")?;
        Ok(JobText {
            in_form,
            out_form,
            in_book,
            out_book,
            moves,
            digits: lines.rest,
            data_line: lines.number,
        })
    }
}
