//! What stands behind the command in a line of words: positional words, and options with their values.

ghost use Rattle.std.specs.Prelude.{◌≡◌, ◌⊎◌, ℕ, List, ◌∷◌, map, option_map, option_copied, string_bytes, if◌then◌else◌, false, Some, None, OnOk, IfOk, IfErr};
ghost use Rattle.std.specs.List.{list_any, before_first, after_first};
ghost use Rattle.std.specs.Str.{bytes_eq};
ghost use Rattle.fab_words.specs.Arguments.{is_equals, is_positional, is_option, option_text, setting, arguments_of, has_setting, are_options, value_of, IsUsage};
ghost use Rattle.fab_words.specs.inner.Plain.{plain_setting, plain_arguments};
ghost use Rattle.fab_words.specs.inner.Taking.{behind, and_setting, TakesArgument, Ends};

use fab_base::{Fault, Memory};
use std::alloc::Global;

/// An option with its value.
#[derive(Drop)]
pub struct Setting<'a> {
    pub name: &'a str,
    pub value: &'a str,
}

/// The positional words, and the options with their values, each in the written order.
#[derive(Drop)]
pub struct Arguments<'a> {
    pub positionals: Vec<&'a str>,
    pub settings: Vec<Setting<'a>>,
}

/// Whether the word is not empty and does not begin with `-`.
pub fn is_positional(word: &str) -> bool
    ensures { result ≡ is_positional word.now }
{
    !word.is_empty() && word.as_bytes()[0] != b'-'
}

/// What stands behind the dashes of an option.
fn option_text(word: &str) -> Option<&str>
    ensures { option_copied result ≡ (if is_option word.now then Some (option_text word.now) else None) }
{
    word.strip_prefix("--")
}

/// The name and the value of an option that holds both.
fn parts_of(text: &str) -> Option<(&str, &str)>
    ensures { option_map (λ parts. setting parts.0.now parts.1.now) result
        ≡ (if list_any is_equals text.now then Some (setting (before_first is_equals text.now) (after_first is_equals text.now)) else None) }
{
    text.split_once('=')
}

/// Takes words one by one. Each step answers the name of the option whose value comes next, if there is one.
impl<'a> Arguments<'a> {
    /// Takes an option with its value.
    fn push_setting(&mut self, name: &'a str, value: &'a str) -> Result<(), Memory>
        ensures { OnOk result (plain_arguments self.new ≡ and_setting (plain_arguments self.old) name.entry.now value.entry.now) }
    {
        self.settings.push(Setting { name, value })?;
        Ok(())
    }

    /// Takes the value of an option, which is a positional word.
    fn take_value(&mut self, name: &'a str, value: &'a str) -> Result<Option<&'a str>, Fault>
        ensures taken { IfOk result (λ next. TakesArgument (plain_arguments self.old) (plain_arguments self.new) (Some name.entry.now) value.entry.now (option_copied next)) }
        ensures usage { IfErr result (IsUsage (Ends (Some name.entry.now) value.entry.now)) }
    {
        if !is_positional(value) {
            return Err(Fault::Usage);
        }
        self.push_setting(name, value)?;
        Ok(None)
    }

    /// Takes an option, with or without its value.
    fn take_option(&mut self, word: &'a str) -> Result<Option<&'a str>, Fault>
        requires { is_positional word.now ≡ false }
        ensures taken { IfOk result (λ next. TakesArgument (plain_arguments self.old) (plain_arguments self.new) None word.entry.now (option_copied next)) }
        ensures usage { IfErr result (IsUsage (Ends None word.entry.now)) }
    {
        let text = option_text(word).ok_or(Fault::Usage)?;
        let Some((name, value)) = parts_of(text) else {
            return Ok(Some(text));
        };
        if value.is_empty() {
            return Err(Fault::Usage);
        }
        self.push_setting(name, value)?;
        Ok(None)
    }

    /// Takes a word that is no value of an option before it.
    fn take_word(&mut self, word: &'a str) -> Result<Option<&'a str>, Fault>
        ensures taken { IfOk result (λ next. TakesArgument (plain_arguments self.old) (plain_arguments self.new) None word.entry.now (option_copied next)) }
        ensures usage { IfErr result (IsUsage (Ends None word.entry.now)) }
    {
        if !is_positional(word) {
            return self.take_option(word);
        }
        self.positionals.push(word)?;
        Ok(None)
    }

    /// Takes the next word, behind the option whose value it is, if there is one.
    fn take(&mut self, named: Option<&'a str>, word: &'a str) -> Result<Option<&'a str>, Fault>
        ensures taken { IfOk result (λ next. TakesArgument (plain_arguments self.old) (plain_arguments self.new) (option_copied named.entry) word.entry.now (option_copied next)) }
        ensures usage { IfErr result (IsUsage (Ends (option_copied named.entry) word.entry.now)) }
    {
        match named {
            Some(name) => self.take_value(name, word),
            None => self.take_word(word),
        }
    }

    /// Takes all words, the last of which is not the name of an option whose value would come next.
    fn take_all(&mut self, words: &'a [String]) -> Result<(), Fault>
        ensures taken { IfOk result (λ _. behind (plain_arguments self.old) (arguments_of None (map string_bytes words.entry.now)) ≡ Some (plain_arguments self.new)) }
        ensures usage { IfErr result (IsUsage (arguments_of None (map string_bytes words.entry.now) ≡ None)) }
    {
        let mut named = None;
        for word in words {
            named = self.take(named, word.as_str())?;
        }
        match named {
            None => Ok(()),
            Some(_) => Err(Fault::Usage),
        }
    }

    /// The arguments that the words are; `Usage` comes exactly where they are none.
    pub fn of(alloc: Global, words: &'a [String]) -> Result<Arguments<'a>, Fault>
        ensures arguments { IfOk result (λ arguments. arguments_of None (map string_bytes words.entry.now) ≡ Some (plain_arguments arguments)) }
        ensures usage { IfErr result (IsUsage (arguments_of None (map string_bytes words.entry.now) ≡ None)) }
    {
        let mut arguments = Arguments {
            positionals: Vec::new(alloc),
            settings: Vec::new(alloc),
        };
        arguments.take_all(words)?;
        Ok(arguments)
    }
}

/// Whether the option is given.
fn has_setting(name: &str, settings: &[Setting<'_>]) -> bool
    ensures { result ≡ has_setting name.now (map plain_setting settings.now) }
{
    for setting in settings {
        if setting.name == name {
            return true;
        }
    }
    false
}

/// Whether the name is one of these.
fn is_any(name: &str, names: &[&str]) -> bool
    ensures { result ≡ list_any (bytes_eq name.now) (map (λ known. known.now) names.now) }
{
    for known in names {
        if name == *known {
            return true;
        }
    }
    false
}

/// Whether options of these names alone are given, each at most once.
///
/// Each step but the last finds a name that no later setting has, so there is at most one step more than there are names.
pub fn are_options(names: &[&str], settings: &[Setting<'_>]) -> bool
    ensures { result ≡ are_options (map (λ name. name.now) names.now) (map plain_setting settings.now) }
{
    for (place, setting) in settings.iter().enumerate() {
        if !is_any(setting.name, names) || has_setting(setting.name, &settings[place + 1..]) {
            return false;
        }
    }
    true
}
