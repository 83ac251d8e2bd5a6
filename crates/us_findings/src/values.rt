use crate::sentences::Sentence;
use toml::Value;
use us_flows::{Rule, keeps};

/// What a rule wants of a value.
pub(crate) fn wanted(rule: Rule) -> Sentence {
    match rule {
        Rule::Number(least, most) | Rule::OptionalNumber(least, most) => {
            numbered("a whole number from # to #", [least, most, 0, 0])
        }
        Rule::Type => Sentence::plain("2, 3, 4, 5 or 6"),
        Rule::Unit => Sentence::plain("1, 2, 4, 8 or 16"),
        Rule::Flag => Sentence::plain("true or false"),
        Rule::Numbers(fewest, many, least, most) => {
            let words = of_length(
                fewest == many,
                "a list of whole numbers from # to #, of length #,",
                "a list of whole numbers from # to #, of length # to #,",
            );
            numbered(words, [least, most, fewest, many])
        }
        Rule::Lists(fewest, many, least, most) => {
            let words = of_length(
                fewest == many,
                "a list of lists of whole numbers from # to #, of length #,",
                "a list of lists of whole numbers from # to #, of length # to #,",
            );
            numbered(words, [least, most, fewest, many])
        }
        Rule::Table => Sentence::plain("a table"),
        Rule::Tables(fewest, many) => numbered(
            "a list of # to # tables, each behind its header in double brackets,",
            [fewest, many, 0, 0],
        ),
    }
}

/// Words with these numbers.
fn numbered(words: &'static str, numbers: [u32; 4]) -> Sentence {
    let [a, b, c, d] = numbers;
    Sentence(words, [a as u64, b as u64, c as u64, d as u64])
}

/// The first words of a list that can have one length alone, else the others.
fn of_length(is_one: bool, one: &'static str, others: &'static str) -> &'static str {
    if is_one { one } else { others }
}

/// What stands behind a value that breaks a rule: which item of a list breaks it, or how many there are.
pub(crate) fn amiss(rule: Rule, value: &Value) -> Sentence {
    match (rule, value.as_array()) {
        (Rule::Numbers(fewest, many, least, most), Some(items)) => {
            amiss_in(items, fewest, many, Rule::Number(least, most))
        }
        (Rule::Lists(fewest, many, least, most), Some(items)) => {
            amiss_in(items, fewest, many, Rule::Numbers(0, u32::MAX, least, most))
        }
        (Rule::Tables(fewest, many), Some(items)) => amiss_in(items, fewest, many, Rule::Table),
        _ => Sentence::plain(" is there"),
    }
}

/// The same of a list that has to have so many items, each by a rule.
fn amiss_in(items: &[Value], fewest: u32, many: u32, each: Rule) -> Sentence {
    if (items.len() < fewest as usize) | ((many as usize) < items.len()) {
        return Sentence::of(" is there: its length is #", items.len() as u64);
    }
    for (place, item) in items.iter().enumerate() {
        if !keeps(each, item) {
            return Sentence::of(" is there: item # is wrong", place.saturating_add(1) as u64);
        }
    }
    Sentence::plain(" is there")
}

/// What a value is that is not written at one place, but below a header or dotted keys.
pub(crate) fn kind_of(value: &Value) -> &'static str {
    match value {
        Value::Table(_) => "a table",
        Value::Array(_) => "a list",
        _ => "another value",
    }
}
