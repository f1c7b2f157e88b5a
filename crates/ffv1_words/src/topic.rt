//! What help is asked for of faults.

ghost use Rattle.std.specs.Prelude.{IfSome, IsNone, map};
ghost use Rattle.ffv1_words.specs.Topic.{AsksTopic, NamesTopic};
ghost use Rattle.ffv1_words.specs.declared.topic.Topic.{Topic};

/// What help is asked for of faults.
#[derive(Clone, Copy, Debug, PartialEq, Eq)]
pub enum Topic {
    /// All faults, by number and name.
    Faults,
    /// The fault of a number, which need not be one.
    Fault(u32),
}

fn topic_named(word: &str) -> Option<Topic>
    ensures some { IfSome result (NamesTopic word.now) }
    ensures none { IsNone result → (t : Topic) → NamesTopic word.now t → ⊥ }
{
    if word == "faults" {
        return Some(Topic::Faults);
    }
    match word.parse::<u32>() {
        Ok(number) => Some(Topic::Fault(number)),
        Err(_) => None,
    }
}

/// The topic of a line of three words, the program's name first: `help`, and then `faults` or a
/// decimal numeral of 32 bits, before which a plus may stand. There is none in any other line,
/// which is for `words`; that refuses a line with a topic, since no command has such a name.
pub fn help_topic(words: &[&str]) -> Option<Topic>
    ensures some { IfSome result (AsksTopic (map (λ w. w.now) words.now)) }
    ensures none { IsNone result → (t : Topic) → AsksTopic (map (λ w. w.now) words.now) t → ⊥ }
{
    if words.len() == 3 && words[1] == "help" {
        return topic_named(words[2]);
    }
    None
}
