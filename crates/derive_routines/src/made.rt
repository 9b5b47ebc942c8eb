//! The routines that are made at the end of a derived file.

ghost use Rattle.std.specs.Prelude.{◌≡◌, ◌≤◌, ◌++◌, length, map, take, IfOk, OnOk};
ghost use Rattle.derive_constants.specs.Held.{known_of};
ghost use Rattle.derive_tokens.specs.Held.{names_of};
ghost use Rattle.derive_values.specs.Values.{first_routine, first_text};
ghost use Rattle.derive_constants.specs.Values.{number_of};
ghost use Rattle.derive_routines.specs.Made as spec;
ghost use Rattle.derive_routines.specs.Search.{spaced};
ghost use Rattle.derive_routines.specs.Held.{arm_of, asked_of, names_now, search_of};

use crate::search::{Arm, RoutineName, Search, put_in_range, put_search};
use crate::texts::{put, put_spaced, taken};
use derive_constants::Known;
use derive_tokens::{Names, put_number};
use std::alloc::{AllocError, Global};

/// What a file asks for.
#[derive(Clone, Copy)]
pub struct Asked<'t> {
    /// The texts and the routines that are values.
    pub texts: &'t Names,
    pub routines: &'t Names,

    /// How many arguments each routine takes.
    pub arities: &'t Known,

    /// The properties to which messages are sent.
    pub messages: &'t Names,

    /// The lists of alternatives.
    pub keys: &'t Names,

    /// `Main` has locals.
    pub apart: bool,

    /// All names of the file.
    pub names: &'t Names,
}

/// The number of the first text that is a value.
const FIRST_TEXT: usize = 49_152;

/// The number of the first routine that is a value.
const FIRST_ROUTINE: usize = 57_344;

// ---- alternatives

fn takes_names(operator: &[u8]) -> bool
    ensures { result ≡ spec.takes_names operator.now }
{
    operator == b"has".as_slice()
        || (operator == b"hasnt".as_slice() || operator == b"provides".as_slice())
}

// The operator without its `not`.
fn positive<'t>(operator: &'t [u8]) -> &'t [u8]
    ensures { result.now ≡ spec.positive operator.now }
{
    if operator == b"hasnt".as_slice() {
        b"has"
    } else if operator == b"notin".as_slice() {
        b"in"
    } else {
        operator
    }
}

fn negation(operator: &[u8]) -> &'static [u8]
    ensures { result.now ≡ spec.negation operator.now }
{
    if operator == b"hasnt".as_slice() || operator == b"notin".as_slice() {
        b"~~"
    } else {
        b""
    }
}

// A test of `x__o`.
fn put_test(text: &mut Vec<u8>, operator: &[u8], name: &[u8]) -> Result<(), AllocError>
    ensures { OnOk result (text.new.items
        ≡ text.old.items ++ spec.test operator.now name.now) }
{
    put(text, b"x__o ")?;
    put(text, operator)?;
    put(text, b" ")?;
    put(text, name)
}

// Tests of `x__o`, one of which holds.
fn put_any(text: &mut Vec<u8>, operator: &[u8], names: &[&[u8]]) -> Result<(), AllocError>
    ensures { OnOk result (text.new.items
        ≡ text.old.items ++ spec.any_of operator.now (names_now names.now)) }
{
    match names {
        [] => Ok(()),
        [first, others @ ..] => {
            put_test(text, operator, *first)?;
            for name in others {
                put(text, b"||")?;
                put_test(text, operator, *name)?;
            }
            Ok(())
        }
    }
}

// The alternatives that are arguments.
fn put_sums(text: &mut Vec<u8>, operator: &[u8], names: &[&[u8]]) -> Result<(), AllocError>
    ensures { OnOk result (text.new.items
        ≡ text.old.items ++ spaced (spec.sums_in operator.now (names_now names.now))) }
{
    if takes_names(operator) {
        Ok(())
    } else {
        put_spaced(text, names)
    }
}

// The routine of alternatives, the k-th.
fn put_alternatives(
    text: &mut Vec<u8>,
    k: usize,
    operator: &[u8],
    names: &[&[u8]],
) -> Result<(), AllocError>
    ensures { OnOk result (text.new.items ≡ text.old.items
        ++ spec.alternatives_text k operator.now (names_now names.now)) }
{
    put(text, b"[ x__or")?;
    put_number(text, k)?;
    put(text, b" x__o")?;
    put_sums(text, operator, names)?;
    put(text, b";return ")?;
    put(text, negation(operator))?;
    put(text, b"(")?;
    put_any(text, positive(operator), names)?;
    put(text, b");];")
}

// The words of a key.
fn key_words<'t>(alloc: Global, key: &'t [u8]) -> Result<Vec<&'t [u8]>, AllocError>
    ensures { IfOk result (λ words. names_now words.items ≡ spec.key_words key.now) }
{
    key.split(|byte| *byte == b' ').collect(alloc)
}

// The routine of a list of alternatives, the k-th.
fn put_key(text: &mut Vec<u8>, k: usize, key: &[u8]) -> Result<(), AllocError>
    ensures { OnOk result (text.new.items
        ≡ text.old.items ++ spec.or_text k (spec.key_words key.now)) }
{
    let alloc = *text.allocator();
    let words = key_words(alloc, key)?;
    match words.as_slice() {
        [] => Ok(()),
        [operator, names @ ..] => put_alternatives(text, k, *operator, names),
    }
}

#[tactic(auto, using(crate::proofs::Rounds::key_on, crate::proofs::Rounds::key_end))]
fn put_keys(text: &mut Vec<u8>, keys: &Names) -> Result<(), AllocError>
    ensures { OnOk result (text.new.items
        ≡ text.old.items ++ spec.or_texts 1 (names_of keys.now)) }
{
    for k in 0..keys.count() {
        put_key(text, k + 1, keys.at(k))?;
    }
    Ok(())
}

// ---- messages

// The routine of messages to a property, the k-th.
fn put_send(text: &mut Vec<u8>, k: usize, property: &[u8]) -> Result<(), AllocError>
    ensures { OnOk result (text.new.items ≡ text.old.items ++ spec.send_text k property.now) }
{
    put(text, b"[ x__send")?;
    put_number(text, k)?;
    put(text, b" x__o x__a x__b x__c x__d x__e x__v x__s;x__v=x__o.")?;
    put(text, property)?;
    put(
        text,
        b";x__s=x__self;x__self=x__o;x__v=x__value(x__v,x__a,x__b,x__c,x__d,x__e);x__self=x__s;return x__v;];",
    )
}

#[tactic(auto, using(crate::proofs::Rounds::send_on, crate::proofs::Rounds::send_end))]
fn put_sends(text: &mut Vec<u8>, messages: &Names) -> Result<(), AllocError>
    ensures { OnOk result (text.new.items
        ≡ text.old.items ++ spec.send_texts 1 (names_of messages.now)) }
{
    for k in 0..messages.count() {
        put_send(text, k + 1, messages.at(k))?;
    }
    Ok(())
}

// The routine that uses the value of a property.
fn put_value(text: &mut Vec<u8>, texts: usize, routines: usize) -> Result<(), AllocError>
    requires texts { texts ≤ 8192 }
    requires routines { routines ≤ 8000 }
    ensures { OnOk result (text.new.items ≡ text.old.items ++ spec.value_text texts routines) }
{
    put(text, b"[ x__value x__v x__a x__b x__c x__d x__e;")?;
    put_in_range(text, FIRST_TEXT, texts, b"x__string(x__v);new_line;rtrue;")?;
    put_in_range(
        text,
        FIRST_ROUTINE,
        routines,
        b"return x__call(x__v,x__a,x__b,x__c,x__d,x__e);",
    )?;
    put(text, b"return x__v;];")
}

// ---- texts and routines that are values

fn text_locals() -> &'static [&'static [u8]]
    ensures { names_now result.now ≡ spec.text_search.locals }
{
    &[b"x__v"]
}

fn text_search() -> Search
    ensures { search_of result ≡ spec.text_search }
{
    Search {
        routine: b"x__string",
        locals: text_locals(),
        first: b"",
        notice: b"^[Fault: not a text]^",
    }
}

fn call_locals() -> &'static [&'static [u8]]
    ensures { names_now result.now ≡ spec.call_search.locals }
{
    &[
        b"x__v", b"x__a", b"x__b", b"x__c", b"x__d", b"x__e", b"x__f",
    ]
}

fn call_search() -> Search
    ensures { search_of result ≡ spec.call_search }
{
    Search {
        routine: b"x__call",
        locals: call_locals(),
        first: b"if(x__v==0)rfalse;",
        notice: b"^[Fault: not a routine]^",
    }
}

// A text that is a value, in a routine of its own.
fn put_text(text: &mut Vec<u8>, value: usize, bytes: &[u8]) -> Result<(), AllocError>
    ensures { OnOk result (text.new.items ≡ text.old.items ++ spec.text_routine value bytes.now) }
{
    put(text, b"[ x__t")?;
    put_number(text, value)?;
    put(text, b";print \"")?;
    put(text, bytes)?;
    put(text, b"\";rtrue;];")
}

#[tactic(auto, using(crate::proofs::Rounds::text_on, crate::proofs::Rounds::text_end))]
fn put_texts(text: &mut Vec<u8>, texts: &Names) -> Result<(), AllocError>
    requires { length (names_of texts.now) ≤ 8192 }
    ensures { OnOk result (text.new.items ≡ text.old.items
        ++ spec.text_routines first_text (names_of texts.now)) }
{
    for k in 0..texts.count() {
        put_text(text, FIRST_TEXT + k, texts.at(k))?;
    }
    Ok(())
}

// The arm of the text that is this value.
fn text_arm<'a>(value: usize) -> Arm<'a>
    ensures { arm_of result ≡ spec.text_arm value }
{
    Arm {
        value,
        routine: RoutineName::Numbered(b"x__t", value),
        skipped: 1,
        count: 0,
    }
}

// The arms of so many texts.
#[tactic(auto, using(crate::proofs::Rounds::text_arm_on, crate::proofs::Rounds::text_arm_end))]
fn text_arms<'a>(alloc: Global, texts: &Names) -> Result<Vec<Arm<'a>>, AllocError>
    requires { length (names_of texts.now) ≤ 8192 }
    ensures value { IfOk result (λ arms. map arm_of arms.items
        ≡ spec.text_arms first_text (names_of texts.now)) }
    ensures few { IfOk result (λ arms. length arms.items ≤ 8192) }
{
    let mut arms = Vec::new(alloc);
    for k in 0..texts.count() {
        arms.push(text_arm(FIRST_TEXT + k))?;
    }
    Ok(arms)
}

fn put_string(text: &mut Vec<u8>, texts: &Names) -> Result<(), AllocError>
    requires { length (names_of texts.now) ≤ 8192 }
    ensures { OnOk result (text.new.items
        ≡ text.old.items ++ spec.string_text (names_of texts.now)) }
{
    let alloc = *text.allocator();
    let arms = text_arms(alloc, texts)?;
    put_texts(text, texts)?;
    put_search(text, text_search(), FIRST_TEXT, arms)
}

// How many arguments a routine is given.
fn argument_count(alloc: Global, arities: &Known, routine: &[u8]) -> Result<usize, AllocError>
    ensures { IfOk result (λ count. count
        ≡ spec.count_of (number_of (known_of arities.now) routine.now)) }
{
    match arities.number(alloc, routine)? {
        Some(count) => Ok(usize::from(count)),
        None => Ok(0),
    }
}

#[tactic(auto, using(crate::proofs::Rounds::routine_arm_on, crate::proofs::Rounds::routine_arm_end))]
fn routine_arms<'a>(
    alloc: Global,
    arities: &Known,
    routines: &'a Names,
) -> Result<Vec<Arm<'a>>, AllocError>
    requires { length (names_of routines.now) ≤ 8000 }
    ensures value { IfOk result (λ arms. map arm_of arms.items
        ≡ spec.routine_arms (known_of arities.now) first_routine (names_of routines.now)) }
    ensures few { IfOk result (λ arms. length arms.items ≤ 8192) }
{
    let mut arms = Vec::new(alloc);
    for k in 0..routines.count() {
        let routine = routines.at(k);
        let count = argument_count(alloc, arities, routine)?;
        arms.push(Arm {
            value: FIRST_ROUTINE + k,
            routine: RoutineName::Plain(routine),
            skipped: 1,
            count,
        })?;
    }
    Ok(arms)
}

fn put_call(text: &mut Vec<u8>, arities: &Known, routines: &Names) -> Result<(), AllocError>
    requires { length (names_of routines.now) ≤ 8000 }
    ensures { OnOk result (text.new.items ≡ text.old.items
        ++ spec.call_text (known_of arities.now) (names_of routines.now)) }
{
    let alloc = *text.allocator();
    let arms = routine_arms(alloc, arities, routines)?;
    put_search(text, call_search(), FIRST_ROUTINE, arms)
}

// ---- random

// The generator: 15 bits of two steps.
fn put_generator(text: &mut Vec<u8>) -> Result<(), AllocError>
    ensures { OnOk result (text.new.items ≡ text.old.items ++ spec.random_text) }
{
    put(
        text,
        b"global x__seed=12345;[ x__random x__n x__a;if(x__n<1){if(x__n<0)x__seed=-x__n;rfalse;}",
    )?;
    put(
        text,
        b"x__seed=x__seed*25173+13849;x__a=x__seed/256&255;x__seed=x__seed*25173+13849;",
    )?;
    put(text, b"return(x__a*128|(x__seed/256&127))%x__n+1;];")
}

// The values among which `random` chooses.
fn choices() -> &'static [&'static [u8]]
    ensures { names_now result.now ≡ spec.choice_names }
{
    &[
        b"x__a", b"x__b", b"x__c", b"x__d", b"x__e", b"x__f", b"x__g",
    ]
}

fn put_choices(text: &mut Vec<u8>, names: &[&[u8]]) -> Result<(), AllocError>
    ensures { OnOk result (text.new.items
        ≡ text.old.items ++ spec.choices_from 1 (names_now names.now)) }
{
    for (k, name) in names.iter().enumerate() {
        put(text, b"if(x__n==")?;
        put_number(text, k + 1)?;
        put(text, b")return ")?;
        put(text, *name)?;
        put(text, b";")?;
    }
    Ok(())
}

// The header of the routine that chooses one of so many values, which have these names.
fn put_choice_header(text: &mut Vec<u8>, count: usize, names: &[&[u8]]) -> Result<(), AllocError>
    requires { names_now names.now ≡ take count spec.choice_names }
    ensures { OnOk result (text.new.items ≡ text.old.items ++ spec.choice_header count) }
{
    put(text, b"[ x__one")?;
    put_number(text, count)?;
    put_spaced(text, names)?;
    put(text, b" x__n;")
}

// The number that it draws.
fn put_drawn(text: &mut Vec<u8>, count: usize) -> Result<(), AllocError>
    ensures { OnOk result (text.new.items ≡ text.old.items ++ spec.drawn count) }
{
    put(text, b"x__n=x__random(")?;
    put_number(text, count)?;
    put(text, b");")
}

// One of so many values at random.
fn put_choice(text: &mut Vec<u8>, count: usize) -> Result<(), AllocError>
    ensures { OnOk result (text.new.items ≡ text.old.items ++ spec.choice_text count) }
{
    let names = taken(choices(), 0, count);
    put_choice_header(text, count, names)?;
    put_drawn(text, count)?;
    put_choices(text, names)?;
    put(text, b"];")
}

// ---- what a file asks for

impl<'t> Asked<'t> {
    fn uses(&self, name: &[u8]) -> bool
        ensures { result ≡ spec.is_used (asked_of self.now) name.now }
    {
        self.names.has(name)
    }

    fn sends(&self) -> bool
        ensures { result ≡ spec.sends (asked_of self.now) }
    {
        self.messages.count() > 0
    }

    // `self` is held.
    fn has_self(&self) -> bool
        ensures { result ≡ spec.has_self (asked_of self.now) }
    {
        self.sends() || self.uses(b"x__self")
    }

    // A number is drawn at random.
    fn draws(&self) -> bool
        ensures { result ≡ spec.draws (asked_of self.now) }
    {
        self.uses(b"x__random") || self.chooses()
    }

    // One of two to seven values is chosen at random.
    fn chooses(&self) -> bool
        ensures { result ≡ spec.chooses (asked_of self.now) }
    {
        self.uses(b"x__one2")
            || (self.uses(b"x__one3")
                || (self.uses(b"x__one4")
                    || (self.uses(b"x__one5") || (self.uses(b"x__one6") || self.uses(b"x__one7")))))
    }

    fn calls(&self) -> bool
        ensures { result ≡ spec.calls (asked_of self.now) }
    {
        self.uses(b"x__call") || (self.sends() && self.routines.count() > 0)
    }

    fn strings(&self) -> bool
        ensures { result ≡ spec.strings (asked_of self.now) }
    {
        self.uses(b"x__string") || (self.sends() && self.texts.count() > 0)
    }
}

// A text that is wanted or not.
fn put_given(text: &mut Vec<u8>, wanted: bool, bytes: &[u8]) -> Result<(), AllocError>
    ensures { OnOk result (text.new.items ≡ text.old.items ++ spec.given wanted bytes.now) }
{
    if wanted { put(text, bytes) } else { Ok(()) }
}

// What messages use.
fn put_values(text: &mut Vec<u8>, asked: Asked<'_>) -> Result<(), AllocError>
    requires texts { length (names_of asked.texts.now) ≤ 8192 }
    requires routines { length (names_of asked.routines.now) ≤ 8000 }
    ensures { OnOk result (text.new.items
        ≡ text.old.items ++ spec.values_text (asked_of asked.entry)) }
{
    if asked.sends() {
        put_value(text, asked.texts.count(), asked.routines.count())
    } else {
        Ok(())
    }
}

// The routines of messages, and what they use.
fn put_messages(text: &mut Vec<u8>, asked: Asked<'_>) -> Result<(), AllocError>
    requires texts { length (names_of asked.texts.now) ≤ 8192 }
    requires routines { length (names_of asked.routines.now) ≤ 8000 }
    ensures { OnOk result (text.new.items
        ≡ text.old.items ++ spec.messages_text (asked_of asked.entry)) }
{
    put_sends(text, asked.messages)?;
    put_given(text, asked.has_self(), b"global x__self;")?;
    put_values(text, asked)?;
    Ok(())
}

fn put_calls(text: &mut Vec<u8>, asked: Asked<'_>) -> Result<(), AllocError>
    requires { length (names_of asked.routines.now) ≤ 8000 }
    ensures { OnOk result (text.new.items
        ≡ text.old.items ++ spec.calls_text (asked_of asked.entry)) }
{
    if asked.calls() {
        put_call(text, asked.arities, asked.routines)
    } else {
        Ok(())
    }
}

fn put_strings(text: &mut Vec<u8>, asked: Asked<'_>) -> Result<(), AllocError>
    requires { length (names_of asked.texts.now) ≤ 8192 }
    ensures { OnOk result (text.new.items
        ≡ text.old.items ++ spec.strings_text (asked_of asked.entry)) }
{
    if asked.strings() {
        put_string(text, asked.texts)
    } else {
        Ok(())
    }
}

// One of so many values, if that is asked for.
fn put_asked_choice(
    text: &mut Vec<u8>,
    asked: Asked<'_>,
    count: usize,
    name: &[u8],
) -> Result<(), AllocError>
    ensures { OnOk result (text.new.items ≡ text.old.items
        ++ spec.choice_given (asked_of asked.entry) name.now count) }
{
    if asked.uses(name) {
        put_choice(text, count)
    } else {
        Ok(())
    }
}

fn put_few_choices(text: &mut Vec<u8>, asked: Asked<'_>) -> Result<(), AllocError>
    ensures { OnOk result (text.new.items
        ≡ text.old.items ++ spec.few_choices (asked_of asked.entry)) }
{
    put_asked_choice(text, asked, 2, b"x__one2")?;
    put_asked_choice(text, asked, 3, b"x__one3")?;
    put_asked_choice(text, asked, 4, b"x__one4")?;
    Ok(())
}

fn put_more_choices(text: &mut Vec<u8>, asked: Asked<'_>) -> Result<(), AllocError>
    ensures { OnOk result (text.new.items
        ≡ text.old.items ++ spec.more_choices (asked_of asked.entry)) }
{
    put_asked_choice(text, asked, 5, b"x__one5")?;
    put_asked_choice(text, asked, 6, b"x__one6")?;
    put_asked_choice(text, asked, 7, b"x__one7")?;
    Ok(())
}

// The generator, if a number is drawn.
fn put_asked_generator(text: &mut Vec<u8>, asked: Asked<'_>) -> Result<(), AllocError>
    ensures { OnOk result (text.new.items ≡ text.old.items
        ++ spec.given (spec.draws (asked_of asked.entry)) spec.random_text) }
{
    if asked.draws() {
        put_generator(text)
    } else {
        Ok(())
    }
}

fn put_random(text: &mut Vec<u8>, asked: Asked<'_>) -> Result<(), AllocError>
    ensures { OnOk result (text.new.items
        ≡ text.old.items ++ spec.randoms_text (asked_of asked.entry)) }
{
    put_few_choices(text, asked)?;
    put_more_choices(text, asked)?;
    put_asked_generator(text, asked)?;
    Ok(())
}

fn put_fixed(
    text: &mut Vec<u8>,
    asked: Asked<'_>,
    routine: &[u8],
    bytes: &[u8],
) -> Result<(), AllocError>
    ensures { OnOk result (text.new.items ≡ text.old.items
        ++ spec.fixed_text (asked_of asked.entry) routine.now bytes.now) }
{
    put_given(text, asked.uses(routine), bytes)
}

// Two texts, where a routine is used.
fn put_pair(
    text: &mut Vec<u8>,
    asked: Asked<'_>,
    routine: &[u8],
    first: &[u8],
    second: &[u8],
) -> Result<(), AllocError>
    ensures { OnOk result (text.new.items ≡ text.old.items
        ++ spec.fixed_text (asked_of asked.entry) routine.now (first.now ++ second.now)) }
{
    if !asked.uses(routine) {
        return Ok(());
    }
    put(text, first)?;
    put(text, second)
}

// The routines of the children of an object.
fn put_child_routines(text: &mut Vec<u8>, asked: Asked<'_>) -> Result<(), AllocError>
    ensures { OnOk result (text.new.items
        ≡ text.old.items ++ spec.child_texts (asked_of asked.entry)) }
{
    put_pair(text, asked, b"x__children", CHILDREN, COUNT)?;
    put_pair(text, asked, b"x__youngest", YOUNGEST, LAST)?;
    put_fixed(text, asked, b"x__eldest", ELDEST)?;
    Ok(())
}

// The routines of the siblings of an object.
fn put_sibling_routines(text: &mut Vec<u8>, asked: Asked<'_>) -> Result<(), AllocError>
    ensures { OnOk result (text.new.items
        ≡ text.old.items ++ spec.sibling_texts (asked_of asked.entry)) }
{
    put_fixed(text, asked, b"x__younger", YOUNGER)?;
    put_fixed(text, asked, b"x__elder", ELDER)?;
    put_pair(text, asked, b"x__elder", BEFORE, BEFORE_END)?;
    Ok(())
}

// The routines that need nothing of the file.
fn put_all_fixed(text: &mut Vec<u8>, asked: Asked<'_>) -> Result<(), AllocError>
    ensures { OnOk result (text.new.items
        ≡ text.old.items ++ spec.fixed_texts (asked_of asked.entry)) }
{
    put_fixed(text, asked, b"x__spaces", SPACES)?;
    put_fixed(text, asked, b"x__both", BOTH)?;
    put_child_routines(text, asked)?;
    put_sibling_routines(text, asked)?;
    Ok(())
}

const SPACES: &[u8] = b"[ x__spaces x__n;while(x__n>0){print(char)32;x__n--;}];";

const BOTH: &[u8] = b"[ x__both x__a x__b x__c x__d x__e x__f x__g;rtrue;];";

const CHILDREN: &[u8] = b"[ x__children x__o;return x__count(child(x__o));];";

const COUNT: &[u8] = b"[ x__count x__o x__n;while(x__o){x__n++;x__o=sibling(x__o);}return x__n;];";

const YOUNGEST: &[u8] = b"[ x__youngest x__o;return x__last(child(x__o));];";

const LAST: &[u8] = b"[ x__last x__o x__n;while(x__o){x__n=x__o;x__o=sibling(x__o);}return x__n;];";

const ELDEST: &[u8] = b"[ x__eldest x__o;return child(x__o);];";

const YOUNGER: &[u8] = b"[ x__younger x__o;return sibling(x__o);];";

const ELDER: &[u8] = b"[ x__elder x__o;return x__before(x__o,parent(x__o));];";

const BEFORE: &[u8] =
    b"[ x__before x__o x__p;if(x__p==0)rfalse;x__p=child(x__p);if(x__p==x__o)rfalse;";

const BEFORE_END: &[u8] = b"while(sibling(x__p)~=x__o)x__p=sibling(x__p);return x__p;];";

// `Main`, and alternatives.
fn put_opening(text: &mut Vec<u8>, asked: Asked<'_>) -> Result<(), AllocError>
    ensures { OnOk result (text.new.items
        ≡ text.old.items ++ spec.opening (asked_of asked.entry)) }
{
    put_given(text, asked.apart, b"[ Main;x__Main();];")?;
    put_keys(text, asked.keys)?;
    Ok(())
}

// What uses the numbers of texts and routines.
fn put_uses(text: &mut Vec<u8>, asked: Asked<'_>) -> Result<(), AllocError>
    requires texts { length (names_of asked.texts.now) ≤ 8192 }
    requires routines { length (names_of asked.routines.now) ≤ 8000 }
    ensures { OnOk result (text.new.items
        ≡ text.old.items ++ spec.uses_text (asked_of asked.entry)) }
{
    put_messages(text, asked)?;
    put_calls(text, asked)?;
    put_strings(text, asked)?;
    Ok(())
}

/// Puts the routines that a file asks for.
///
/// # Errors
///
/// `AllocError` where memory is refused.
pub fn put_made(text: &mut Vec<u8>, asked: Asked<'_>) -> Result<(), AllocError>
    requires texts { length (names_of asked.texts.now) ≤ 8192 }
    requires routines { length (names_of asked.routines.now) ≤ 8000 }
    ensures { OnOk result (text.new.items ≡ text.old.items ++ spec.made (asked_of asked.entry)) }
{
    put_opening(text, asked)?;
    put_uses(text, asked)?;
    put_random(text, asked)?;
    put_all_fixed(text, asked)?;
    Ok(())
}
