//! The printed text of refusals.
ghost use Rattle.std.specs.Prelude.{◌≡◌, ◌++◌, decimal, string_bytes, OnOk};
ghost use Rattle.ts_base.specs.Spelling.{name_text};
ghost use Rattle.ts_query.specs.Refusals.{condition_text, domain_text, schema_text, refusal_text, place_text};

use ts_base::{Label, Name, NameText, OutOfMemory, Place};
use ts_cond::CondFault;
use ts_domain::DomainFault;
use ts_model::Refusal;
use ts_schema::SchemaFault;

/// Adds why a command was refused.
#[tactic(auto, unfolding(crate::specs::Refusals::refusal_text))]
pub(crate) fn print_refusal(text: &mut String, refusal: &Refusal) -> Result<(), OutOfMemory>
    ensures { OnOk result (string_bytes text.new
        ≡ string_bytes text.old ++ refusal_text refusal.now) }
{
    match refusal {
        Refusal::ArrayExists => print_word(text, "ArrayExists"),
        Refusal::DomainBad(fault) => print_domain_fault(text, fault),
        Refusal::SchemaBad(fault) => print_schema_fault(text, fault),
        Refusal::NoSchema { at } => print_number(text, "NoSchema\t", *at),
        Refusal::SchemaClash { attr } => print_label(text, "SchemaClash\t", attr),
        Refusal::Domain { dim, value } => {
            write!(text, "Domain\t{dim}\t{value}")?;
            Ok(())
        }
        Refusal::DuplicateCell { index } => print_number(text, "DuplicateCell\t", *index),
        Refusal::TooMany { cells } => print_number(text, "TooMany\t", *cells),
        Refusal::DenseArray => print_word(text, "DenseArray"),
        Refusal::UnknownField { field } => print_label(text, "UnknownField\t", field),
        Refusal::Condition(fault) => {
            print_word(text, "Condition\t")?;
            print_condition_fault(text, fault)
        }
        Refusal::NothingToDo { eligible } => print_number(text, "NothingToDo\t", *eligible),
        Refusal::Leased(name) => print_name(text, "Leased\t", name),
        Refusal::Taken(name) => print_name(text, "Taken\t", name),
        Refusal::StoreFault(place) => print_place(text, "StoreFault\t", place),
        Refusal::Damaged { name, at } => {
            print_name(text, "Damaged\t", name)?;
            print_number(text, "\t", *at)
        }
        Refusal::Missing(name) => print_name(text, "Missing\t", name),
    }
}

/// Adds why there is no domain.
#[tactic(auto, unfolding(crate::specs::Refusals::domain_text))]
fn print_domain_fault(text: &mut String, fault: &DomainFault) -> Result<(), OutOfMemory>
    ensures { OnOk result (string_bytes text.new ≡ string_bytes text.old ++ domain_text fault.now) }
{
    match fault {
        DomainFault::TooManyDims { count } => write!(text, "TooManyDims\t{count}")?,
        DomainFault::EmptyDim { dim } => write!(text, "EmptyDim\t{dim}")?,
        DomainFault::BadExtent { dim } => write!(text, "BadExtent\t{dim}")?,
        DomainFault::PastType { dim } => write!(text, "PastType\t{dim}")?,
        DomainFault::DuplicateName { dim } => write!(text, "DuplicateName\t{dim}")?,
    }
    Ok(())
}

/// Adds why there is no schema.
#[tactic(auto, unfolding(crate::specs::Refusals::schema_text))]
fn print_schema_fault(text: &mut String, fault: &SchemaFault) -> Result<(), OutOfMemory>
    ensures { OnOk result (string_bytes text.new ≡ string_bytes text.old ++ schema_text fault.now) }
{
    match fault {
        SchemaFault::DuplicateAttr(label) => print_label(text, "DuplicateAttr\t", label),
        SchemaFault::UnknownAttr(label) => print_label(text, "UnknownAttr\t", label),
        SchemaFault::NoAttrLeft => print_word(text, "NoAttrLeft"),
        SchemaFault::TooManyAttrs { count } => print_number(text, "TooManyAttrs\t", *count),
        SchemaFault::BadFill(label) => print_label(text, "BadFill\t", label),
        SchemaFault::OutOfMemory => print_word(text, "OutOfMemory"),
    }
}

/// Adds what is wrong with the text of a condition.
#[tactic(auto, unfolding(crate::specs::Refusals::condition_text))]
fn print_condition_fault(text: &mut String, fault: &CondFault) -> Result<(), OutOfMemory>
    ensures { OnOk result (string_bytes text.new
        ≡ string_bytes text.old ++ condition_text fault.now) }
{
    match fault {
        CondFault::Syntax { at } => print_number(text, "Syntax\t", *at),
        CondFault::UnknownField(label) => print_label(text, "UnknownField\t", label),
        CondFault::TypeClash(label) => print_label(text, "TypeClash\t", label),
        CondFault::TooDeep => print_word(text, "TooDeep"),
        CondFault::TooLarge => print_word(text, "TooLarge"),
        CondFault::OutOfMemory => print_word(text, "OutOfMemory"),
    }
}

/// Adds a word.
fn print_word(text: &mut String, word: &str) -> Result<(), OutOfMemory>
    ensures { OnOk result (string_bytes text.new ≡ string_bytes text.old ++ word.now) }
{
    text.push_str(word)?;
    Ok(())
}

/// Adds a word and a number.
fn print_number(text: &mut String, word: &str, number: u64) -> Result<(), OutOfMemory>
    ensures { OnOk result (string_bytes text.new
        ≡ string_bytes text.old ++ (word.now ++ decimal number)) }
{
    write!(text, "{word}{number}")?;
    Ok(())
}

/// Adds a word and a label.
fn print_label(text: &mut String, word: &str, label: &Label) -> Result<(), OutOfMemory>
    ensures { OnOk result (string_bytes text.new
        ≡ string_bytes text.old ++ (word.now ++ label.now)) }
{
    text.push_str(word)?;
    text.push_str(label.text())?;
    Ok(())
}

/// Adds a word and the name of an object.
fn print_name(text: &mut String, word: &str, name: &Name) -> Result<(), OutOfMemory>
    ensures { OnOk result (string_bytes text.new
        ≡ string_bytes text.old ++ (word.now ++ name_text name.now)) }
{
    let spelled = name.spell();
    text.push_str(word)?;
    text.push_str(spelled.text())?;
    Ok(())
}

/// Adds a word and the spelling of a name or a prefix.
fn print_place(text: &mut String, word: &str, place: &Place) -> Result<(), OutOfMemory>
    ensures { OnOk result (string_bytes text.new
        ≡ string_bytes text.old ++ (word.now ++ place_text place.now)) }
{
    let spelled = spell_place(place);
    text.push_str(word)?;
    text.push_str(spelled.text())?;
    Ok(())
}

/// The spelling of a name or a prefix.
#[tactic(auto, unfolding(crate::specs::Refusals::place_text))]
fn spell_place(place: &Place) -> NameText
    ensures { result ≡ place_text place.now }
{
    match place {
        Place::Name(name) => name.spell(),
        Place::Prefix(prefix) => prefix.spell(),
    }
}
