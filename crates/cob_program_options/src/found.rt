//! What the parser found of options.

ghost use Rattle.std.specs.Prelude.{◌≡◌, Some, is_some, option_map, true};
ghost use Rattle.cob_program_options.specs.Looks.{is_flagged, look_of};

use clap::ArgMatches;

/// What an option names, which has a value.
pub fn named<'a>(options: &ArgMatches<'a>, name: &str) -> &'a str
    requires { is_some (look_of options.now name.now) ≡ true }
    ensures { look_of options.now name.now ≡ Some result.now }
{
    options.get_str(name).unwrap()
}

/// What an option names that may be left out.
pub fn named_if_there<'a>(options: &ArgMatches<'a>, name: &str) -> Option<&'a str>
    ensures { look_of options.now name.now ≡ option_map (λ word. word.now) result }
{
    options.get_str(name)
}

/// Whether a flag was given.
pub fn flag(options: &ArgMatches<'_>, name: &str) -> bool
    ensures { result ≡ is_flagged name.now (look_of options.now) }
{
    match options.get_str(name) {
        Some(value) => value == "true",
        None => false,
    }
}
