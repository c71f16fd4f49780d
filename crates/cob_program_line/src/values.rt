//! What the options of a command name, each by itself and in groups.

ghost use Rattle.std.specs.Prelude.{◌≡◌, ◌<◌, ◌≤◌, ℕ, Bool, IfErr, IfOk, None, Option, Some, codes, is_some, true};
ghost use Rattle.cob_program_options.specs.Commands.{choice_options, forms_options, piece_options, texts_options};
ghost use Rattle.cob_program_line.specs.Faults.{HasListing, HasPiece, HasPieces, IsFaultIn, LacksBinary, LacksBound, LacksForm, LacksListing, LacksMeasure, LacksNumber, LacksReading, LacksSize, LacksZones};
ghost use Rattle.cob_program_line.specs.Lines.{NameChoice, NameForms, NameNoForms, NameHanding, NamePiece, NameTexts};
ghost use Rattle.cob_program_options.specs.Looks.{AreNamed, look_of};
ghost use Rattle.cob_program_line.specs.Named.{NamesBlock, NamesBound, NamesLrecl, NamesNumber, NamesReading, NamesRightForm, binary_by_word, form_by_letter, letter_of, listing_by_word, measure_by_word, sized_by, word_of_binary, word_of_listing, word_of_measure, word_of_zones, zones_by_word};
ghost use Rattle.cob_program_line.specs.Numbers.{SaysNumber};
ghost use Rattle.cob_program_line.specs.declared.fault.LineFault.TheVariants.{Lrecl};
ghost use Rattle.cob_limits.specs.Limits.{longest_block};
ghost use Rattle.cob_records.specs.Blocks.{IsBlockSize};
ghost use Rattle.cob_records.specs.Forms.{HasBlockSize};

use crate::fault::LineFault;
use crate::line::{Forms, Handing, Listing, Measure, TextFiles};
use crate::number::number_of;
use clap::ArgMatches;
use cob_codec::Reading;
use cob_limits::MAX_BLOCK;
use cob_program_options::{flag, named, named_if_there};
use cob_records::{Form, block_size_of};

// The form that a letter names.
fn form_named(letter: &str) -> Option<Form>
    ensures { result ≡ form_by_letter letter.now }
{
    match letter {
        "f" => Some(Form::Fixed),
        "v" => Some(Form::Variable),
        "b" => Some(Form::Blocked(MAX_BLOCK)),
        _ => None,
    }
}

// What a word says of binary items: whether they are read whole.
fn binary_named(word: &str) -> Option<bool>
    ensures { result ≡ binary_by_word word.now }
{
    match word {
        "pictured" => Some(false),
        "whole" => Some(true),
        _ => None,
    }
}

// What a word says of zones: whether items are read by any.
fn zones_named(word: &str) -> Option<bool>
    ensures { result ≡ zones_by_word word.now }
{
    match word {
        "strict" => Some(false),
        "any" => Some(true),
        _ => None,
    }
}

// The listing of values that a word names.
fn listing_named(word: &str) -> Option<Listing>
    ensures { result ≡ listing_by_word word.now }
{
    match word {
        "text" => Some(Listing::Text),
        "json" => Some(Listing::Json),
        "csv" => Some(Listing::Csv),
        _ => None,
    }
}

// The measure of a comparison that a word names.
fn measure_named(word: &str) -> Option<Measure>
    ensures { result ≡ measure_by_word word.now }
{
    match word {
        "value" => Some(Measure::Value),
        "bytes" => Some(Measure::Bytes),
        _ => None,
    }
}

// The form that an option names, which has a value.
pub(crate) fn form(options: &ArgMatches<'_>, name: &str) -> Result<Form, LineFault>
    requires { is_some (look_of options.now name.now) ≡ true }
    ensures named { IfOk result (λ form. look_of options.now name.now ≡ Some (letter_of form)) }
    ensures lacks { IfErr result (λ _. (form : Form)
        → look_of options.now name.now ≡ Some (letter_of form) → ⊥) }
    ensures fault { IfErr result (λ fault. (fault ≡ LineFault.Form)
        × LacksForm (look_of options.now) name.now) }
    ensures sized { IfOk result (λ form. form ≡ sized_by longest_block form) }
    ensures block { IfOk result HasBlockSize }
{
    form_named(named(options, name)).ok_or(LineFault::Form)
}

// Whether binary items are read whole, as their option says, which has a value.
fn binary(options: &ArgMatches<'_>) -> Result<bool, LineFault>
    requires { is_some (look_of options.now (codes "binary")) ≡ true }
    ensures named { IfOk result (λ whole.
        look_of options.now (codes "binary") ≡ Some (word_of_binary whole)) }
    ensures lacks { IfErr result (λ _. (whole : Bool)
        → look_of options.now (codes "binary") ≡ Some (word_of_binary whole) → ⊥) }
    ensures fault { IfErr result (λ fault. (fault ≡ LineFault.Reading)
        × LacksBinary (look_of options.now)) }
{
    binary_named(named(options, "binary")).ok_or(LineFault::Reading)
}

// Whether items are read by any zones, as the option for these says, which has a value.
fn zones(options: &ArgMatches<'_>) -> Result<bool, LineFault>
    requires { is_some (look_of options.now (codes "zones")) ≡ true }
    ensures named { IfOk result (λ any.
        look_of options.now (codes "zones") ≡ Some (word_of_zones any)) }
    ensures lacks { IfErr result (λ _. (any : Bool)
        → look_of options.now (codes "zones") ≡ Some (word_of_zones any) → ⊥) }
    ensures fault { IfErr result (λ fault. (fault ≡ LineFault.Reading)
        × LacksZones (look_of options.now)) }
{
    zones_named(named(options, "zones")).ok_or(LineFault::Reading)
}

// The reading of senders that its options name, which have values.
fn reading(options: &ArgMatches<'_>) -> Result<Reading, LineFault>
    requires binary { is_some (look_of options.now (codes "binary")) ≡ true }
    requires zones { is_some (look_of options.now (codes "zones")) ≡ true }
    ensures named { IfOk result (NamesReading (look_of options.now)) }
    ensures lacks { IfErr result (λ _. (reading : Reading)
        → NamesReading (look_of options.now) reading → ⊥) }
    ensures fault { IfErr result (λ fault. (fault ≡ LineFault.Reading)
        × LacksReading (look_of options.now)) }
{
    match binary(options) {
        Ok(whole) => match zones(options) {
            Ok(any) => Ok(Reading::of(whole, any)),
            Err(told) => Err(told),
        },
        Err(told) => Err(told),
    }
}

// The listing of values that its option names, which has a value.
pub(crate) fn listing(options: &ArgMatches<'_>) -> Result<Listing, LineFault>
    requires { is_some (look_of options.now (codes "as")) ≡ true }
    ensures named { IfOk result (λ listing.
        look_of options.now (codes "as") ≡ Some (word_of_listing listing)) }
    ensures lacks { IfErr result (λ _. (listing : Listing)
        → look_of options.now (codes "as") ≡ Some (word_of_listing listing) → ⊥) }
    ensures fault { IfErr result (λ fault. (fault ≡ LineFault.Listing)
        × LacksListing (look_of options.now)) }
{
    listing_named(named(options, "as")).ok_or(LineFault::Listing)
}

// The measure of a comparison that its option names, which has a value.
pub(crate) fn measure(options: &ArgMatches<'_>) -> Result<Measure, LineFault>
    requires { is_some (look_of options.now (codes "by")) ≡ true }
    ensures named { IfOk result (λ measure.
        look_of options.now (codes "by") ≡ Some (word_of_measure measure)) }
    ensures lacks { IfErr result (λ _. (measure : Measure)
        → look_of options.now (codes "by") ≡ Some (word_of_measure measure) → ⊥) }
    ensures fault { IfErr result (λ fault. (fault ≡ LineFault.Measure)
        × LacksMeasure (look_of options.now)) }
{
    measure_named(named(options, "by")).ok_or(LineFault::Measure)
}

// The form of the records on the right, which its option names, or which is that on the left.
pub(crate) fn right_form(options: &ArgMatches<'_>, left: Form) -> Result<Form, LineFault>
    requires { HasBlockSize left }
    ensures named { IfOk result (NamesRightForm (look_of options.now) left) }
    ensures lacks { IfErr result (λ _. (right : Form)
        → NamesRightForm (look_of options.now) left right → ⊥) }
    ensures fault { IfErr result (λ fault. (fault ≡ LineFault.Form)
        × LacksForm (look_of options.now) (codes "right-form")) }
    ensures block { IfOk result HasBlockSize }
{
    match named_if_there(options, "right-form") {
        None => Ok(left),
        Some(letter) => form_named(letter).ok_or(LineFault::Form),
    }
}

// The greatest size of blocks that an option says, which has a value, where the form has blocks.
fn block(options: &ArgMatches<'_>, name: &str, form: Form) -> Result<u16, LineFault>
    requires { is_some (look_of options.now name.now) ≡ true }
    ensures named { IfOk result (NamesBlock (look_of options.now) name.now form) }
    ensures lacks { IfErr result (λ _. (size : ℕ)
        → NamesBlock (look_of options.now) name.now form size → ⊥) }
    ensures fault { IfErr result (λ fault. (fault ≡ LineFault.Block)
        × LacksSize (look_of options.now) name.now form) }
    ensures size { IfOk result IsBlockSize }
{
    match form {
        Form::Fixed => Ok(MAX_BLOCK),
        Form::Variable => Ok(MAX_BLOCK),
        Form::Blocked(_) => match block_size_of(named(options, name).as_bytes()) {
            Some(size) => Ok(size),
            None => Err(LineFault::Block),
        },
    }
}

// The form with blocks of at most this size, where it has blocks.
fn sized(form: Form, size: u16) -> Form
    requires { IsBlockSize size }
    ensures value { result ≡ sized_by size form }
    ensures block { HasBlockSize result }
{
    match form {
        Form::Fixed => Form::Fixed,
        Form::Variable => Form::Variable,
        Form::Blocked(_) => Form::Blocked(size),
    }
}

// The number, this one at least, that an option says, which has a value; where it says none, that is this fault.
pub(crate) fn number(
    options: &ArgMatches<'_>,
    name: &str,
    least: u64,
    fault: LineFault,
) -> Result<u64, LineFault>
    requires { is_some (look_of options.now name.now) ≡ true }
    ensures named { IfOk result (NamesNumber (look_of options.now) name.now least) }
    ensures lacks { IfErr result (λ _. (number : ℕ)
        → NamesNumber (look_of options.now) name.now least number → ⊥) }
    ensures fault { IfErr result (λ told. (told ≡ fault)
        × LacksNumber (look_of options.now) name.now least) }
    ensures least { IfOk result (λ number. least ≤ number) }
{
    match number_of(named(options, name).as_bytes()) {
        Some(number) if number >= least => Ok(number),
        _ => Err(fault),
    }
}

// The number that an option says, which has a value, or none where it says all; where it says neither, that is this fault.
pub(crate) fn bound(
    options: &ArgMatches<'_>,
    name: &str,
    fault: LineFault,
) -> Result<Option<u64>, LineFault>
    requires { is_some (look_of options.now name.now) ≡ true }
    ensures named { IfOk result (NamesBound (look_of options.now) name.now) }
    ensures lacks { IfErr result (λ _. (most : Option ℕ)
        → NamesBound (look_of options.now) name.now most → ⊥) }
    ensures fault { IfErr result (λ told. (told ≡ fault)
        × LacksBound (look_of options.now) name.now) }
{
    let word = named(options, name);
    if word == "all" {
        return Ok(None);
    }
    match number_of(word.as_bytes()) {
        Some(number) => Ok(Some(number)),
        None => Err(fault),
    }
}

// The record length of the input that a word says, from 1 on.
fn lrecl_named(word: &str) -> Result<u64, LineFault>
    ensures named { IfOk result (λ lrecl. SaysNumber word.now lrecl × (1 ≤ lrecl)) }
    ensures lacks { IfErr result (λ fault. (fault ≡ Lrecl)
        × ((lrecl : ℕ) → SaysNumber word.now lrecl → 1 ≤ lrecl → ⊥)) }
{
    match number_of(word.as_bytes()) {
        Some(lrecl) if lrecl >= 1 => Ok(lrecl),
        _ => Err(LineFault::Lrecl),
    }
}

// The record length of the input that its option says, where the option is there.
pub(crate) fn lrecl_of(options: &ArgMatches<'_>) -> Result<Option<u64>, LineFault>
    requires { HasPieces (look_of options.now) }
    ensures named { IfOk result (NamesLrecl (look_of options.now)) }
    ensures lacks { IfErr result (λ _. (lrecl : Option ℕ)
        → NamesLrecl (look_of options.now) lrecl → ⊥) }
    ensures fault { IfErr result (IsFaultIn (look_of options.now)) }
{
    match named_if_there(options, "lrecl") {
        None => Ok(None),
        Some(word) => match lrecl_named(word) {
            Ok(lrecl) => Ok(Some(lrecl)),
            Err(fault) => Err(fault),
        },
    }
}

// The files of the three texts.
pub(crate) fn texts_of<'a>(options: &ArgMatches<'a>) -> TextFiles<'a>
    requires { AreNamed texts_options (look_of options.now) }
    ensures { NameTexts (look_of options.now) result }
{
    TextFiles {
        in_book: named(options, "in-book"),
        out_book: named(options, "out-book"),
        moves: named(options, "moves"),
    }
}

// The forms of both files, the greatest sizes of their blocks, and the reading of senders.
pub(crate) fn forms_of(options: &ArgMatches<'_>) -> Result<Forms, LineFault>
    requires named { AreNamed forms_options (look_of options.now) }
    requires only { look_of options.now (codes "form") ≡ None }
    requires neither { look_of options.now (codes "right-form") ≡ None }
    ensures named { IfOk result (NameForms (look_of options.now)) }
    ensures lacks { IfErr result (λ _. NameNoForms (look_of options.now)) }
    ensures fault { IfErr result (IsFaultIn (look_of options.now)) }
    ensures blocks { IfOk result
        (λ forms. HasBlockSize forms.input × HasBlockSize forms.output) }
{
    let in_form = form(options, "in-form")?;
    let out_form = form(options, "out-form")?;
    let reading = reading(options)?;
    let in_block = block(options, "in-block", in_form)?;
    let out_block = block(options, "out-block", out_form)?;
    Ok(Forms {
        input: sized(in_form, in_block),
        output: sized(out_form, out_block),
        in_block,
        out_block,
        reading,
    })
}

// The number of a record, which its option says.
pub(crate) fn record_of(options: &ArgMatches<'_>) -> Result<u64, LineFault>
    requires named { is_some (look_of options.now (codes "record")) ≡ true }
    requires before { HasListing (look_of options.now) }
    ensures named { IfOk result (NamesNumber (look_of options.now) (codes "record") 1) }
    ensures lacks { IfErr result (λ _. (number : ℕ)
        → NamesNumber (look_of options.now) (codes "record") 1 number → ⊥) }
    ensures fault { IfErr result (IsFaultIn (look_of options.now)) }
    ensures least { IfOk result (λ number. 0 < number) }
{
    number(options, "record", 1, LineFault::Piece)
}

// A piece of the input: where it begins, how long it is where it has an end, and the number of its first record.
#[derive(Clone, Copy)]
pub(crate) struct PieceWords {
    pub(crate) from: u64,
    pub(crate) bytes: Option<u64>,
    pub(crate) first: u64,
}

pub(crate) fn piece_of(options: &ArgMatches<'_>) -> Result<PieceWords, LineFault>
    requires named { AreNamed piece_options (look_of options.now) }
    requires before { HasListing (look_of options.now) }
    ensures named { IfOk result (λ piece. NamePiece (look_of options.now)
        piece.from piece.bytes piece.first) }
    ensures lacks { IfErr result (λ _. (from : ℕ) (bytes : Option ℕ) (first : ℕ)
        → NamePiece (look_of options.now) from bytes first → ⊥) }
    ensures fault { IfErr result (IsFaultIn (look_of options.now)) }
{
    let from = number(options, "from", 0, LineFault::Piece)?;
    let bytes = bound(options, "bytes", LineFault::Piece)?;
    let first = record_of(options)?;
    Ok(PieceWords { from, bytes, first })
}

// How many records are passed over, and how many behind them are taken, where it is not all.
#[derive(Clone, Copy)]
pub(crate) struct ChosenRecords {
    pub(crate) skip: u64,
    pub(crate) records: Option<u64>,
}

pub(crate) fn choice_of(options: &ArgMatches<'_>) -> Result<ChosenRecords, LineFault>
    requires named { AreNamed choice_options (look_of options.now) }
    requires before { HasPiece (look_of options.now) }
    ensures named { IfOk result (λ choice. NameChoice (look_of options.now)
        choice.skip choice.records) }
    ensures lacks { IfErr result (λ _. (skip : ℕ) (records : Option ℕ)
        → NameChoice (look_of options.now) skip records → ⊥) }
    ensures fault { IfErr result (IsFaultIn (look_of options.now)) }
{
    let skip = number(options, "skip", 0, LineFault::Number)?;
    let records = bound(options, "records", LineFault::Number)?;
    Ok(ChosenRecords { skip, records })
}

// How the options hand copybooks over.
pub(crate) fn handing_of<'a>(options: &ArgMatches<'a>) -> Handing<'a>
    ensures { NameHanding (look_of options.now) result }
{
    Handing {
        copy_dirs: named_if_there(options, "copy-dir"),
        replace: named_if_there(options, "replace"),
        tabs: named_if_there(options, "tabs"),
        free: flag(options, "free"),
        in_record: named_if_there(options, "in-record"),
        out_record: named_if_there(options, "out-record"),
        record: named_if_there(options, "record-name"),
        records_as: named_if_there(options, "records-as"),
    }
}
