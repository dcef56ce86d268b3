//! What surrounds an expression.

ghost use Rattle.std.specs.Prelude.{◌≡◌, option_map};
ghost use Rattle.xf_def_xpath.specs.Given.{document_of, beside, property_of};

use xf_def_forest::NodeId;
use xf_def_xpath::Value;
use xf_name::Prefixes;
use xf_num::Decimals;

/// What surrounds an expression (XForms 1.1, section 7): the instances of the form, the indexes of its repeats, the event that is
/// handled, and the form's namespaces and decimals. Contracts see it as the record of these.
pub trait Around {
    ghost use Rattle.xf_def_xpath.specs.Given.{Given};

    ghost given: { Self → Given };

    /// The document element of the model's instance with this id; the empty id means its first.
    fn instance(&self, model: u32, id: &str) -> Option<NodeId>
        ensures { option_map (λ n. n.number) result ≡ document_of model id.now (given self.now).documents };

    /// The index of the repeat with this id.
    fn index(&self, id: &str) -> Option<u32>
        ensures { result ≡ beside id.now (given self.now).indexes };

    /// A property of the event that is handled, where one is.
    fn event(&self, name: &str) -> Option<&Value>
        ensures { option_map (λ v. v.now) result ≡ property_of name.now (given self.now).event };

    /// The namespaces and prefixes of the form.
    fn prefixes(&self) -> &Prefixes
        ensures { result.now ≡ (given self.now).bindings };

    /// How many decimals numbers have.
    fn decimals(&self) -> Decimals
        ensures { result ≡ (given self.now).decimals };
}
