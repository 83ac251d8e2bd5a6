use crate::documents::{list_at, values_of};
use crate::hints::{Hint, hint_of};
use crate::keys::Keys;
use crate::sentences::Sentence;
use crate::shown::ShownKey;
use crate::spots::KeyPath;
use crate::titles::{Title, table_words};
use crate::values::wanted;
use std::fmt;
use toml::{Table, Value};
use us_flows::{ConfigFault, Place, Rule};

/// A finding of a configuration whose line isn't known yet, and which isn't written yet.
#[derive(Clone, Copy)]
pub(crate) struct Draft<'a> {
    pub(crate) fault: ConfigFault,
    /// The table that it is about.
    title: Title,
    /// Where it stands.
    pub(crate) path: KeyPath<'a>,
    /// The key that it is about, between words.
    key: &'a str,
    around: [&'static str; 2],
    /// What is wanted of the key, or wrong with it.
    sentence: Sentence,
    hint: Hint,
    /// The value that breaks a rule, if it is one.
    pub(crate) value: Option<(Rule, &'a Value)>,
    /// A key of another table that it names.
    pub(crate) other: Option<KeyPath<'a>>,
}

/// Why a table breaks a rule of several keys or tables.
#[derive(Clone, Copy)]
pub(crate) struct Why<'a> {
    /// The key that is to be changed.
    pub(crate) key: &'static str,
    /// What is wrong with it.
    pub(crate) sentence: Sentence,
    /// A key of another table that has to do with it.
    pub(crate) other: Option<KeyPath<'a>>,
}

/// What stands behind what is wanted.
const WANTED: Hint = Hint {
    words: " is wanted",
    key: "",
};

impl<'a> Draft<'a> {
    /// What is wrong with a key of a table: this.
    fn of_key(title: Title, key: &'a str, sentence: Sentence, hint: Hint) -> Draft<'a> {
        Draft {
            fault: ConfigFault::Range(title.place),
            title,
            path: KeyPath {
                place: title.place,
                profile: title.profile,
                key: Some(key),
            },
            key,
            around: [", ", ": "],
            sentence,
            hint,
            value: None,
            other: None,
        }
    }

    /// A table lacks a key of this rule.
    pub(crate) fn missing(title: Title, key: &'a str, rule: Rule) -> Draft<'a> {
        let mut draft = Draft::of_key(title, key, wanted(rule), WANTED);
        draft.fault = ConfigFault::Missing(title.place);
        // A profile stands where its key does.
        draft.path = KeyPath::of(title.place, title.profile);
        draft.around = [": the key ", " is missing, "];
        draft
    }

    /// The value of a key breaks its rule. Of too many tables it stands at the first that is too many.
    pub(crate) fn wrong(title: Title, key: &'a str, rule: Rule, value: &'a Value) -> Draft<'a> {
        let mut draft = Draft::of_key(title, key, wanted(rule), WANTED);
        draft.value = Some((rule, value));
        if let Some(first) = too_many(key, rule, value) {
            draft.path = KeyPath::of(first, None);
        }
        draft
    }

    /// The table can have these keys alone, and has another.
    pub(crate) fn unknown(title: Title, key: &'a str, keys: Keys, table: &Table) -> Draft<'a> {
        Draft::of_key(title, key, keys.none_of(), hint_of(keys, table, key))
    }

    /// A table breaks a rule of several keys, or of several tables.
    pub(crate) fn several(title: Title, fault: ConfigFault, why: Why<'a>) -> Draft<'a> {
        let none = Hint { words: "", key: "" };
        Draft {
            fault,
            other: why.other,
            ..Draft::of_key(title, why.key, why.sentence, none)
        }
    }
}

/// The first table of a list that is too many, where there are too many.
fn too_many(key: &str, rule: Rule, value: &Value) -> Option<Place> {
    let Rule::Tables(_, many) = rule else {
        return None;
    };
    match list_at(key) {
        Some((_, table)) if values_of(value).len() > many as usize => {
            Some(Place { table, index: many })
        }
        _ => None,
    }
}

/// Writes the title of the table, and what is wrong with it.
impl fmt::Display for Draft<'_> {
    fn fmt<W: fmt::Write>(&self, f: &mut fmt::Formatter<W>) -> fmt::Result {
        let (comma, profile) = match self.title.profile {
            Some(profile) => (", ", profile),
            None => ("", ""),
        };
        write!(
            f,
            "{}{comma}{profile}{}{}{}{}{}{}",
            table_words(self.title.place, self.title.id),
            self.around[0],
            ShownKey(self.key),
            self.around[1],
            self.sentence,
            self.hint.words,
            self.hint.key
        )
    }
}
