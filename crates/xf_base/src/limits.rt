//! The limits of the processor, each of which stands here once; `specs/Limits.antt` says the same numbers to contracts.
//!
//! Sizes are bytes unless another unit is named.
ghost use Rattle.std.specs.Prelude.{◌≡◌};
ghost use Rattle.xf_base.specs.Limits.{line_limit, stream_limit, event_name_limit, turn_limit, dispatch_limit, note_limit, made_limit, found_limit, answer_limit, store_name_limit, part_limit, namespace_limit, prefix_limit, expression_limit, nesting_limit, string_limit, edge_limit, form_limit, model_limit, instance_limit, bind_limit, control_limit, copy_limit, pass_limit, told_limit, node_limit, text_limit, all_limit, depth_limit, slot_limit, used_limit, adoption_limit};

// ---- the event stream

/// One line of the event stream, without its line feed.
pub const LINE_LIMIT: usize = 65_536;

/// All bytes of the event stream in one run.
pub const STREAM_LIMIT: usize = 67_108_864;

/// The name of an event.
pub const EVENT_NAME_LIMIT: usize = 255;

/// Turns of one event.
pub const TURN_LIMIT: u32 = 50_000;

/// Dispatches of one event, one inside another.
pub const DISPATCH_LIMIT: u32 = 64;

/// Bytes of the note lines of one event.
pub const NOTE_LIMIT: usize = 1_048_576;

/// Nodes made in one event.
pub const MADE_LIMIT: u64 = 4_294_967_296;

// ---- the store

/// What a store gives for one name.
pub const FOUND_LIMIT: usize = 1_048_576;

/// How often a store answers within one event.
pub const ANSWER_LIMIT: usize = 16;

/// A name in a store.
pub const STORE_NAME_LIMIT: usize = 64;

// ---- names

/// A namespace prefix, a local name: one part of a name.
pub const PART_LIMIT: usize = 255;

/// Namespaces of a form.
pub const NAMESPACE_LIMIT: usize = 256;

/// Prefixes of a form.
pub const PREFIX_LIMIT: usize = 32_768;

// ---- expressions

/// The text of an expression; no list in it has more parts.
pub const EXPRESSION_LIMIT: usize = 4_096;

/// Parentheses and signs of an expression, one inside another.
pub const NESTING_LIMIT: u32 = 64;

/// A string that an expression makes on the way.
pub const STRING_LIMIT: u32 = 4_194_304;

/// What all binds of a form read and look at, counted together.
pub const EDGE_LIMIT: u64 = 8_388_608;

// ---- a form

/// A form's text.
pub const FORM_LIMIT: usize = 1_048_576;

/// Models of a form.
pub const MODEL_LIMIT: usize = 16;

/// Instances of a form.
pub const INSTANCE_LIMIT: usize = 64;

/// Binds of a form.
pub const BIND_LIMIT: usize = 4_096;

/// Controls and containers of a form.
pub const CONTROL_LIMIT: usize = 4_096;

/// Copies of controls and items, each repeated or not.
pub const COPY_LIMIT: usize = 65_536;

/// Passes over the indexes of repeats at one time.
pub const PASS_LIMIT: u32 = 64;

/// What is told of a form that is refused.
pub const TOLD_LIMIT: usize = 8_192;

// ---- data

/// Elements, attributes and texts in all trees.
pub const NODE_LIMIT: usize = 65_536;

/// One text or attribute.
pub const TEXT_LIMIT: usize = 65_536;

/// All names and texts.
pub const ALL_LIMIT: u128 = 4_194_304;

/// Elements from the top of a tree down.
pub const DEPTH_LIMIT: u32 = 100;

// ---- a session

/// A slot of a session's journal.
pub const SLOT_LIMIT: usize = 67_108_864;

/// The bytes in use, its last gate counted, with which a slot still takes an event.
pub const USED_LIMIT: u64 = 33_554_432;

/// One more than a session's form is ever changed.
pub const ADOPTION_LIMIT: u32 = 2_147_483_648;

// ---- each constant is the number that contracts speak of

/// The limits of the event stream and of one event.
pub fn limits_of_events()
    ensures line { LINE_LIMIT ≡ line_limit }
    ensures stream { STREAM_LIMIT ≡ stream_limit }
    ensures event_name { EVENT_NAME_LIMIT ≡ event_name_limit }
    ensures turn { TURN_LIMIT ≡ turn_limit }
    ensures dispatch { DISPATCH_LIMIT ≡ dispatch_limit }
    ensures note { NOTE_LIMIT ≡ note_limit }
    ensures made { MADE_LIMIT ≡ made_limit }
{}

/// The limits of a store.
pub fn limits_of_store()
    ensures found { FOUND_LIMIT ≡ found_limit }
    ensures answer { ANSWER_LIMIT ≡ answer_limit }
    ensures store_name { STORE_NAME_LIMIT ≡ store_name_limit }
{}

/// The limits of names.
pub fn limits_of_names()
    ensures part { PART_LIMIT ≡ part_limit }
    ensures namespace { NAMESPACE_LIMIT ≡ namespace_limit }
    ensures prefix { PREFIX_LIMIT ≡ prefix_limit }
{}

/// The limits of expressions.
pub fn limits_of_expressions()
    ensures expression { EXPRESSION_LIMIT ≡ expression_limit }
    ensures nesting { NESTING_LIMIT ≡ nesting_limit }
    ensures string { STRING_LIMIT ≡ string_limit }
    ensures edge { EDGE_LIMIT ≡ edge_limit }
{}

/// The limits of a form and of its controls.
pub fn limits_of_forms()
    ensures form { FORM_LIMIT ≡ form_limit }
    ensures model { MODEL_LIMIT ≡ model_limit }
    ensures instance { INSTANCE_LIMIT ≡ instance_limit }
    ensures bind { BIND_LIMIT ≡ bind_limit }
    ensures control { CONTROL_LIMIT ≡ control_limit }
    ensures copy { COPY_LIMIT ≡ copy_limit }
    ensures pass { PASS_LIMIT ≡ pass_limit }
    ensures told { TOLD_LIMIT ≡ told_limit }
{}

/// The limits of data.
pub fn limits_of_trees()
    ensures node { NODE_LIMIT ≡ node_limit }
    ensures text { TEXT_LIMIT ≡ text_limit }
    ensures all { ALL_LIMIT ≡ all_limit }
    ensures depth { DEPTH_LIMIT ≡ depth_limit }
{}

/// The limits of a session that is kept.
pub fn limits_of_sessions()
    ensures slot { SLOT_LIMIT ≡ slot_limit }
    ensures used { USED_LIMIT ≡ used_limit }
    ensures adoption { ADOPTION_LIMIT ≡ adoption_limit }
{}
