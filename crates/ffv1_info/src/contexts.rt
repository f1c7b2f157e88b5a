//! How many contexts the sets of a record have, by number and by name.

ghost use Rattle.std.specs.Prelude.{◌≡◌, ◌++◌, OnOk};
ghost use Rattle.ffv1_info.specs.Contexts.{contexts_behind, contexts_between, contexts_fact};
ghost use Rattle.ffv1_info.specs.Contexts.{contexts_facts, contexts_item, contexts_name};
ghost use Rattle.ffv1_info.specs.Contexts.{contexts_value, name_behind, name_item};

use ffv1_outline::Form;
use ffv1_outline::facts::{closing, push_opening};
use ffv1_plane::QuantSet;
use ffv1_video::number_lines::push_number;
use std::alloc::{AllocError, Allocator};

/// What a fact says of how many contexts a set has.
#[derive(Clone, Copy)]
pub(crate) enum Shown {
    /// The number.
    Number,
    /// Its name.
    Name,
    /// Both.
    Both,
}

/// The name of so many contexts of a set, or an empty one if the number has none.
#[tactic(auto, unfolding(crate::specs::Contexts::contexts_name))]
fn contexts_name(number: u32) -> &'static [u8]
    ensures { result.now ≡ contexts_name number }
{
    match number {
        365 | 666 => b"small",
        5063 | 7563 | 16638 => b"large",
        _ => b"",
    }
}

/// Appends a name behind its number, if there is one.
fn push_name<A: Allocator>(value: &mut Vec<u8, A>, name: &[u8]) -> Result<(), AllocError>
    ensures { OnOk result (value.new.items ≡ value.old.items ++ name_behind name.now) }
{
    if name.is_empty() {
        return Ok(());
    }
    value.extend_from_slice(b" (")?;
    value.extend_from_slice(name)?;
    value.extend_from_slice(b")")
}

/// Appends a name as an item of an array of JSON.
fn push_name_item<A: Allocator>(value: &mut Vec<u8, A>, name: &[u8]) -> Result<(), AllocError>
    ensures { OnOk result (value.new.items ≡ value.old.items ++ name_item name.now) }
{
    if name.is_empty() {
        return value.extend_from_slice(b"null");
    }
    value.extend_from_slice(b"\"")?;
    value.extend_from_slice(name)?;
    value.extend_from_slice(b"\"")
}

/// Appends how many contexts a set has.
fn push_item<A: Allocator>(
    value: &mut Vec<u8, A>,
    shown: Shown,
    contexts: u32,
) -> Result<(), AllocError>
    ensures { OnOk result (value.new.items ≡ value.old.items ++ contexts_item shown contexts) }
{
    match shown {
        Shown::Number => push_number(value, b"", u64::from(contexts)),
        Shown::Name => push_name_item(value, contexts_name(contexts)),
        Shown::Both => {
            push_number(value, b"", u64::from(contexts))?;
            push_name(value, contexts_name(contexts))
        }
    }
}

/// Appends how many contexts each set has, with a sign before each.
fn push_behind<A: Allocator, B: Allocator>(
    value: &mut Vec<u8, A>,
    shown: Shown,
    sign: &[u8],
    sets: &[QuantSet<B>],
) -> Result<(), AllocError>
    ensures { OnOk result (value.new.items
        ≡ value.old.items ++ contexts_behind shown sign.now sets.now) }
{
    for set in sets {
        value.extend_from_slice(sign)?;
        push_item(value, shown, set.contexts())?;
    }
    Ok(())
}

/// Appends how many contexts each set has, with a sign between them.
fn push_between<A: Allocator, B: Allocator>(
    value: &mut Vec<u8, A>,
    shown: Shown,
    sign: &[u8],
    sets: &[QuantSet<B>],
) -> Result<(), AllocError>
    ensures { OnOk result (value.new.items
        ≡ value.old.items ++ contexts_between shown sign.now sets.now) }
{
    if sets.is_empty() {
        return Ok(());
    }
    push_item(value, shown, sets[0].contexts())?;
    push_behind(value, shown, sign, &sets[1..])
}

/// Appends how many contexts each set has, as a value.
fn push_value<A: Allocator, B: Allocator>(
    text: &mut Vec<u8, A>,
    form: Form,
    shown: Shown,
    sets: &[QuantSet<B>],
) -> Result<(), AllocError>
    ensures { OnOk result (text.new.items ≡ text.old.items ++ contexts_value form shown sets.now) }
{
    match form {
        Form::Text => push_between(text, shown, b", ", sets)?,
        Form::Json => {
            text.extend_from_slice(b"[")?;
            push_between(text, shown, b",", sets)?;
            text.extend_from_slice(b"]")?;
        }
    }
    Ok(())
}

/// Appends a fact of how many contexts each set has.
fn push_fact<A: Allocator, B: Allocator>(
    text: &mut Vec<u8, A>,
    form: Form,
    name: &[u8],
    shown: Shown,
    sets: &[QuantSet<B>],
) -> Result<(), AllocError>
    ensures { OnOk result (text.new.items
        ≡ text.old.items ++ contexts_fact form name.now shown sets.now) }
{
    push_opening(text, form, name)?;
    push_value(text, form, shown, sets)?;
    text.extend_from_slice(closing(form))?;
    Ok(())
}

/// Appends how many contexts each set has: in a line the numbers and their names, and in JSON a
/// member of each.
pub(crate) fn push_contexts<A: Allocator, B: Allocator>(
    text: &mut Vec<u8, A>,
    form: Form,
    sets: &[QuantSet<B>],
) -> Result<(), AllocError>
    ensures { OnOk result (text.new.items ≡ text.old.items ++ contexts_facts form sets.now) }
{
    match form {
        Form::Text => push_fact(text, form, b"contexts", Shown::Both, sets)?,
        Form::Json => {
            push_fact(text, form, b"contexts", Shown::Number, sets)?;
            push_fact(text, form, b"context_names", Shown::Name, sets)?;
        }
    }
    Ok(())
}
