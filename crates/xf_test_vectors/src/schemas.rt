//! The calls of xf_schema. Types stand behind each other with `;` between two: a name, the base, and facets as `length=3`, with `,` between
//! two. A name is a namespace, `:` and a local part; `xs` and `xf` stand for the namespaces of XML Schema and XForms.

use crate::calls::{Answer, told};
use crate::types::space_of;
use std::alloc::{AllocError, Global};
use xf_base::Items;
use xf_name::Word;
use xf_schema::{
    Facet, FacetKind, NamedType, Restriction, TypeName, first_bad, is_of_type, type_called,
};

/// Types that are spelt, and the words at each place, the first of which is 1.
#[derive(Drop)]
struct Spelt {
    types: Items<Restriction>,
    words: Items<Word>,
}

pub fn answer(alloc: Global, call: &str, given: &[Word]) -> Answer {
    let [types, rest @ ..] = given else {
        return Ok(None);
    };
    let Some(spelt) = spelt_of(alloc, types.as_str())? else {
        return Ok(None);
    };
    match (call, rest) {
        ("bad", []) => bad_in(alloc, &spelt, None),
        ("bad", [place]) => match place.as_str().parse::<u32>() {
            Ok(place) => bad_in(alloc, &spelt, Some(place)),
            Err(_) => Ok(None),
        },
        ("meets", [name, text]) => meets(alloc, &spelt, name.as_str(), text.as_str()),
        _ => Ok(None),
    }
}

/// The place of the first bad element and the words there, or `none`.
fn bad_in(alloc: Global, spelt: &Spelt, other: Option<u32>) -> Answer {
    let Some(place) = first_bad(spelt.types.as_slice(), other) else {
        return Ok(Some(String::from_str(alloc, "none")?));
    };
    if other == Some(place) {
        return Ok(Some(String::from_str(alloc, "other")?));
    }
    let words = match spelt
        .words
        .as_slice()
        .get((place as usize).saturating_sub(1))
    {
        Some(words) => words.as_str(),
        None => "",
    };
    Ok(Some(format!(in alloc; "{place} {words}")?))
}

fn meets(alloc: Global, spelt: &Spelt, name: &str, text: &str) -> Answer {
    let types = spelt.types.as_slice();
    let Some(NamedType::Declared(number)) = named_in(alloc, types, name)? else {
        return Ok(Some(String::from_str(alloc, "none")?));
    };
    if first_bad(types, None).is_some() {
        return Ok(Some(String::from_str(alloc, "bad")?));
    }
    told(
        alloc,
        is_of_type(alloc, types, &NamedType::Declared(number), text)?,
    )
}

fn named_in(
    alloc: Global,
    types: &[Restriction],
    name: &str,
) -> Result<Option<NamedType>, AllocError> {
    let mut names = Items::new(alloc);
    for restriction in types {
        names.push(copied(alloc, &restriction.name)?)?;
    }
    let (space, local) = parts_of(name);
    Ok(type_called(names.as_slice(), space_of(space), local))
}

fn copied(alloc: Global, name: &TypeName) -> Result<TypeName, AllocError> {
    Ok(TypeName {
        space: Word::from_str(alloc, name.space.as_str())?,
        local: Word::from_str(alloc, name.local.as_str())?,
    })
}

// ---- types as they are spelt

fn spelt_of(alloc: Global, text: &str) -> Result<Option<Spelt>, AllocError> {
    let mut names = Items::new(alloc);
    for line in text.split(';') {
        let name = line.split_once(',').map_or(line, |parts| parts.0);
        names.push(name_of(alloc, name)?)?;
    }
    let mut spelt = Spelt {
        types: Items::new(alloc),
        words: Items::new(alloc),
    };
    for line in text.split(';') {
        if !push_type(alloc, line, names.as_slice(), &mut spelt)? {
            return Ok(None);
        }
    }
    Ok(Some(spelt))
}

/// Whether a type is spelt so.
fn push_type(
    alloc: Global,
    line: &str,
    names: &[TypeName],
    spelt: &mut Spelt,
) -> Result<bool, AllocError> {
    let mut words = line.split(',');
    let (Some(name), Some(base)) = (words.next(), words.next()) else {
        return Ok(false);
    };
    let type_place = next_place(alloc, spelt, name)?;
    let place = next_place(alloc, spelt, base)?;
    let mut facets = Items::new(alloc);
    for word in words {
        let Some(facet) = facet_of(alloc, word, spelt)? else {
            return Ok(false);
        };
        facets.push(facet)?;
    }
    let (space, local) = parts_of(base);
    spelt.types.push(Restriction {
        name: name_of(alloc, name)?,
        type_place,
        base: type_called(names, space_of(space), local),
        place,
        facets,
    })?;
    Ok(true)
}

fn facet_of(alloc: Global, word: &str, spelt: &mut Spelt) -> Result<Option<Facet>, AllocError> {
    let Some((name, value)) = word.split_once('=') else {
        return Ok(None);
    };
    let Some(kind) = kind_of(name) else {
        return Ok(None);
    };
    Ok(Some(Facet {
        kind,
        value: Word::from_str(alloc, value)?,
        place: next_place(alloc, spelt, word)?,
    }))
}

fn kind_of(name: &str) -> Option<FacetKind> {
    match name {
        "length" => Some(FacetKind::Length),
        "minLength" => Some(FacetKind::MinLength),
        "maxLength" => Some(FacetKind::MaxLength),
        "enumeration" => Some(FacetKind::Enumeration),
        "minInclusive" => Some(FacetKind::MinInclusive),
        "maxInclusive" => Some(FacetKind::MaxInclusive),
        "minExclusive" => Some(FacetKind::MinExclusive),
        "maxExclusive" => Some(FacetKind::MaxExclusive),
        "totalDigits" => Some(FacetKind::TotalDigits),
        "fractionDigits" => Some(FacetKind::FractionDigits),
        "whiteSpace" => Some(FacetKind::WhiteSpace),
        _ => None,
    }
}

/// The next place, from 1, with the words there.
fn next_place(alloc: Global, spelt: &mut Spelt, words: &str) -> Result<u32, AllocError> {
    spelt.words.push(Word::from_str(alloc, words)?)?;
    u32::try_from(spelt.words.as_slice().len()).map_err(|_| AllocError)
}

fn name_of(alloc: Global, name: &str) -> Result<TypeName, AllocError> {
    let (space, local) = parts_of(name);
    Ok(TypeName {
        space: Word::from_str(alloc, space_of(space))?,
        local: Word::from_str(alloc, local)?,
    })
}

fn parts_of(name: &str) -> (&str, &str) {
    match name.split_once(':') {
        Some((space, local)) => (space, local),
        None => ("", name),
    }
}
