// Laws of values of types, of which other definitions and contracts can make use. The functions do nothing.
ghost use Rattle.value_laws.specs.Laws.{ReadsBackAlone, StructReadsBackAlone, IsWholeOfType};
ghost use Rattle.value_laws.specs.Laws.{ReadsOfType, ShowsSound, StructShowsSound};
ghost use Rattle.value_laws.specs.Laws.{ShowsNoDeeper, StructShowsNoDeeper, ReadsNoDeeper, ShowsAsDeep};

/// The law that each value of a type reads back from the JSON tree that shows it, and no other value
/// does: over every interface whose names are good, and every type whose names are defined there and
/// distinct in their brackets.
pub fn shown_values_read_back_alone()
    ensures { ReadsBackAlone }
{}

/// The same law of each struct and the object that shows its value.
pub fn shown_fields_read_back_alone()
    ensures { StructReadsBackAlone }
{}

/// The law that foreign data of a value of a type has no numbers but whole ones from -2^63 to 2^63-1:
/// two values of types can be compared by `same`.
pub fn values_of_types_are_whole()
    ensures { IsWholeOfType }
{}

/// The law that what reads by a type is of the type.
pub fn values_read_are_of_the_type()
    ensures { ReadsOfType }
{}

/// The law that the JSON tree that shows a value of a type has whole numbers alone, and the keys of its
/// objects in byte order and each once: it can be written so that its text stands for it alone.
pub fn shown_values_are_sound()
    ensures { ShowsSound }
{}

/// The same law of a struct, whose values are shown as objects.
pub fn shown_fields_are_sound()
    ensures { StructShowsSound }
{}

/// The law that the JSON tree that shows a value is no deeper than the value.
pub fn shown_values_are_no_deeper()
    ensures { ShowsNoDeeper }
{}

/// The same law of a struct.
pub fn shown_fields_are_no_deeper()
    ensures { StructShowsNoDeeper }
{}

/// The law that a value is no deeper than the JSON tree from which it reads.
pub fn values_read_are_no_deeper()
    ensures { ReadsNoDeeper }
{}

/// The law that a value of a type is exactly as deep as the JSON tree that shows it, where the names of
/// the type are defined and distinct in their brackets.
pub fn shown_values_are_as_deep()
    ensures { ShowsAsDeep }
{}
