//! The prefixes and namespaces of a form.

ghost use Rattle.std.specs.Prelude.{◌≡◌, map, option_map, IfOk};
ghost use Rattle.xf_base.specs.Gives.{Gives};
ghost use Rattle.xf_name.specs.Part.{is_part, kind_of};
ghost use Rattle.xf_name.specs.Bindings.{no_bindings, space_number, prefix_numbers, text_of_space, text_of_prefix, space_of_prefix, resolved};
ghost use Rattle.xf_name.specs.Faults.{name_fault};
ghost use Rattle.xf_name.specs.Declarations.{with_space, with_prefix, with_kind, with_attributes};
ghost use Rattle.xf_name.specs.Declares.{Declares, GivesTables};
ghost use Rattle.xf_name.specs.Shown.{shown_by, with_shown};

use crate::fault::{NameFault, SurveyFault};
use crate::faults::name_fault;
use crate::lit::{LitElement, Pair};
use crate::part::{at_colon, is_part};
use crate::qname::QName;
use crate::word::Word;
use indexmap::{IndexMap, IndexSet};
use std::alloc::{AllocError, Global};
use std::marker::Model;
use xf_base::limits::{NAMESPACE_LIMIT, PREFIX_LIMIT};

// The prefix that every form knows, its namespace, and the number of both.
const XML_PREFIX: &str = "xml";

const XML_SPACE: &str = "http://www.w3.org/XML/1998/namespace";

const XML_NUMBER: u16 = 65535;

/// The namespaces and prefixes of a form. Each has the number of its place in the order of first declaration, counted from 1; 0 is
/// none, and `xml` has 65,535 in both.
#[derive(Drop)]
pub struct Prefixes {
    alloc: Global,
    spaces: IndexSet<String>,
    prefixes: IndexMap<String, u16>,
}

impl Model for Prefixes {
    ghost use Rattle.xf_name.specs.Bindings.{Bindings};

    ghost Value = { Bindings };

    ghost use Rattle.std.specs.Prelude.{◌≤◌, length, map, string_bytes};
    ghost use Rattle.xf_base.specs.Limits.{namespace_limit, prefix_limit};

    ghost view = { λ p. record { spaces = map string_bytes p.spaces.keys; prefixes = map (λ e. (string_bytes e.0, e.1)) p.prefixes.entries } };

    ghost invariant = { λ p. (length p.spaces.keys ≤ namespace_limit) × (length p.prefixes.entries ≤ prefix_limit) };
}

impl Prefixes {
    pub(crate) fn new(alloc: Global) -> Prefixes
        ensures { result ≡ no_bindings }
    {
        Prefixes {
            alloc,
            spaces: IndexSet::new(alloc),
            prefixes: IndexMap::new(alloc),
        }
    }

    /// What a written name means. One without a prefix has the namespace `space`.
    pub fn resolve(&self, written: &str, space: u16) -> Result<QName, NameFault>
        ensures { Gives NameFault.Memory (λ name. name) result (resolved self.now written.now space) }
    {
        let Some((before, after)) = at_colon(written) else {
            if !is_part(written) {
                return Err(NameFault::BadName);
            }
            return Ok(QName {
                space,
                prefix: 0,
                local: Word::from_str(self.alloc, written)?,
            });
        };
        if !is_part(before) || !is_part(after) {
            return Err(NameFault::BadName);
        }
        let Some((prefix, space)) = self.prefix_numbers(before) else {
            return Err(NameFault::PrefixUnknown);
        };
        Ok(QName {
            space,
            prefix,
            local: Word::from_str(self.alloc, after)?,
        })
    }

    /// The number of a namespace.
    pub fn space_of(&self, uri: &str) -> Option<u16>
        ensures { result ≡ space_number self.now uri.now }
    {
        if uri == XML_SPACE {
            return Some(XML_NUMBER);
        }
        match self.spaces.get_index_of(uri) {
            Some(at) => Some(at as u16 + 1),
            None => None,
        }
    }

    // The numbers of a prefix and of its namespace.
    pub(crate) fn prefix_numbers(&self, prefix: &str) -> Option<(u16, u16)>
        ensures { result ≡ prefix_numbers self.now prefix.now }
    {
        if prefix == XML_PREFIX {
            return Some((XML_NUMBER, XML_NUMBER));
        }
        match self.prefixes.get_full(prefix) {
            Some((at, _, space)) => Some((at as u16 + 1, *space)),
            None => None,
        }
    }

    /// The prefix with a number.
    pub fn prefix_text(&self, prefix: u16) -> Option<&str>
        ensures { option_map (λ text. text.now) result ≡ text_of_prefix self.now prefix }
    {
        if prefix == XML_NUMBER {
            return Some(XML_PREFIX);
        }
        if prefix == 0 {
            return None;
        }
        match self.prefixes.get_index(prefix as usize - 1) {
            Some((text, _)) => Some(text.as_str()),
            None => None,
        }
    }

    /// The number of the namespace that the prefix with a number stands for.
    pub fn space_of_prefix(&self, prefix: u16) -> Option<u16>
        ensures { result ≡ space_of_prefix self.now prefix }
    {
        if prefix == XML_NUMBER {
            return Some(XML_NUMBER);
        }
        if prefix == 0 {
            return None;
        }
        match self.prefixes.get_index(prefix as usize - 1) {
            Some((_, space)) => Some(*space),
            None => None,
        }
    }

    /// The namespace with a number.
    pub fn space_text(&self, space: u16) -> Option<&str>
        ensures { option_map (λ text. text.now) result ≡ text_of_space self.now space }
    {
        if space == XML_NUMBER {
            return Some(XML_SPACE);
        }
        if space == 0 {
            return None;
        }
        match self.spaces.get_index(space as usize - 1) {
            Some(text) => Some(text.as_str()),
            None => None,
        }
    }

    /// The first fault of an element: of its names, then of its prefixes.
    pub fn fault_of(&self, element: &LitElement) -> Result<Option<NameFault>, AllocError>
        ensures { IfOk result (λ fault. fault ≡ name_fault self.now element.now.name element.now.attributes) }
    {
        let mut seen = IndexSet::new(self.alloc);
        name_fault(self, element, &mut seen)
    }

    // What elements declare, in their order.
    pub(crate) fn of_elements(
        alloc: Global,
        elements: &[&LitElement],
    ) -> Result<Prefixes, SurveyFault>
        ensures { GivesTables result (with_shown no_bindings (map shown_by elements.now)) }
    {
        let mut prefixes = Prefixes::new(alloc);
        for element in elements {
            match prefixes.declare_all(element.attributes.as_slice()) {
                Ok(()) => continue,
                Err(fault) => return Err(fault),
            }
        }
        // The tables never pass the limits of a form.
        let _ = &prefixes.spaces;
        Ok(prefixes)
    }

    // What the attributes of an element declare.
    fn declare_all(&mut self, attributes: &[Pair]) -> Result<(), SurveyFault>
        ensures { Declares result self.new (with_attributes self.old attributes.now) }
    {
        for attribute in attributes {
            match self.declare(attribute) {
                Ok(()) => continue,
                Err(fault) => return Err(fault),
            }
        }
        Ok(())
    }

    fn declare(&mut self, attribute: &Pair) -> Result<(), SurveyFault>
        ensures { Declares result self.new (with_kind self.old (kind_of attribute.now.name) attribute.now.text) }
    {
        match at_colon(attribute.name.as_str()) {
            Some((before, prefix)) => {
                if before == "xmlns" {
                    return self.bind(prefix, attribute.text.as_str());
                }
            }
            None => {
                if attribute.name.is("xmlns") {
                    return self.add_space(attribute.text.as_str());
                }
            }
        }
        Ok(())
    }

    fn add_space(&mut self, uri: &str) -> Result<(), SurveyFault>
        ensures { Declares result self.new (with_space self.old uri.now) }
    {
        if uri.is_empty() || self.space_of(uri).is_some() {
            return Ok(());
        }
        if self.spaces.len() == NAMESPACE_LIMIT {
            return Err(SurveyFault::TooMany);
        }
        self.spaces.insert(String::from_str(self.alloc, uri)?)?;
        Ok(())
    }

    // The first namespace of a prefix stays.
    fn bind(&mut self, prefix: &str, uri: &str) -> Result<(), SurveyFault>
        ensures { Declares result self.new (with_prefix self.old prefix.now uri.now) }
    {
        if uri.is_empty() || !is_part(prefix) || self.prefix_numbers(prefix).is_some() {
            return Ok(());
        }
        self.add_space(uri)?;
        let space = self.space_of(uri).unwrap_or(0);
        if self.prefixes.len() == PREFIX_LIMIT {
            return Err(SurveyFault::TooMany);
        }
        self.prefixes
            .insert(String::from_str(self.alloc, prefix)?, space)?;
        Ok(())
    }
}
