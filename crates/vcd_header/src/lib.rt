// The header of a value change dump, token by token.
#![tactic(auto)]

ghost use Rattle.std.specs.Prelude.{◌≡◌, ◌<◌, ◌≤◌, eqb, false};
ghost use Rattle.bits.specs.Byte.{pick};
ghost use Rattle.vcd_keywords.specs.Words.{pin_of};
ghost use Rattle.vcd_header.specs.Header.{in_section, with_unit, with_variable, stops_at, faulty as faulty_of, closed_by, keyword_step, text_step, count_step, letters_step, unit_step, scope_step, is_name, scope_name_step, pending as pending_of, type_as, size_as, code_step, name_step, whole_step, index_step, ending_step, step_as, end_as, fresh_head};

use vcd_keywords::{
    Keyword, Sort, count_of, index_state, is_scope, joined_of, keyword_of, letters_of, pin_of,
    scaled, sort_of,
};
use vcd_text::{NumberError, is_end};

// What the reader of the header waits for.
#[derive(Clone, Copy)]
pub enum Section {
    // a keyword
    Outside,
    // the end of a comment, date or version
    Text,
    // a unit, by its number
    Count,
    Letters,
    UnitEnd,
    ScopeType,
    ScopeName,
    VarType,
    VarSize,
    VarCode,
    VarName,
    // an index, more of it, or the end of the variable
    VarIndex,
    // the end of $scope or $upscope
    Closing,
    // the end of $enddefinitions
    Ending,
}

// The unit that is read: the place of its number and its ps; and the unit that holds, 0 for none.
#[derive(Clone, Copy)]
pub struct Unit {
    pub first: usize,
    pub scale: u64,
    pub unit: u64,
}

// The variable that is read: the places of its code, how far its index is read, the pin of its name, whether it is a scalar,
// and whether it is read to its end.
#[derive(Clone, Copy)]
pub struct Pending {
    pub from: usize,
    pub to: usize,
    pub index: u32,
    pub pin: u8,
    pub scalar: bool,
    pub whole: bool,
}

// Whether the header is read to its end; the refusal, or number 0; the place of the refusal, or where the body begins.
#[derive(Clone, Copy)]
pub struct Close {
    pub place: usize,
    pub number: u8,
    pub stop: bool,
}

// Where the reader of the header stands: the place of the section's keyword, the number of variables declared, and so on.
#[derive(Clone, Copy)]
pub struct Head {
    pub mark: usize,
    pub entries: usize,
    pub unit: Unit,
    pub variable: Pending,
    pub close: Close,
    pub section: Section,
}

// ---- names

#[tactic(auto, unfolding(crate::specs::Header::is_name))]
fn is_name(t: &[u8]) -> bool
    ensures { result ≡ is_name t.now }
{
    !is_end(t) && vcd_text::all_graphic(t)
}

// ---- the head with some parts changed

fn in_section(h: Head, section: Section, mark: usize) -> Head
    ensures { result ≡ in_section h section mark }
{
    Head { mark, section, ..h }
}

fn with_unit(h: Head, section: Section, first: usize, scale: u64, unit: u64) -> Head
    ensures { result ≡ with_unit h section (record { first = first; scale = scale; unit = unit }) }
{
    let unit = Unit { first, scale, unit };
    Head { unit, section, ..h }
}

fn variable_read(from: usize, to: usize, pin: u8, index: u32, scalar: bool, whole: bool) -> Pending
    ensures { result ≡ pending_of from to pin index scalar whole }
{
    Pending {
        from,
        to,
        index,
        pin,
        scalar,
        whole,
    }
}

fn with_variable(h: Head, section: Section, variable: Pending) -> Head
    ensures { result ≡ with_variable h section variable }
{
    Head {
        variable,
        section,
        ..h
    }
}

fn stop_at(h: Head, number: u8, place: usize) -> Head
    ensures { result ≡ stops_at h number place }
{
    let close = Close {
        place,
        number,
        stop: true,
    };
    Head { close, ..h }
}

fn faulty(h: Head) -> Head
    ensures { result ≡ faulty_of h }
{
    stop_at(h, 40, h.mark)
}

// ---- sections

#[tactic(auto, unfolding(crate::specs::Header::closed_by))]
fn closing(t: &[u8], h: Head) -> Head
    ensures { result ≡ closed_by t.now h }
{
    if is_end(t) {
        return in_section(h, Section::Outside, 0);
    }
    faulty(h)
}

#[tactic(auto, unfolding(crate::specs::Header::keyword_step))]
fn keyword_step(keyword: Keyword, h: Head, p: usize) -> Head
    ensures { result ≡ keyword_step keyword h p }
{
    match keyword {
        Keyword::Text => in_section(h, Section::Text, p),
        Keyword::Timescale => in_section(h, Section::Count, p),
        Keyword::Scope => in_section(h, Section::ScopeType, p),
        Keyword::Upscope => in_section(h, Section::Closing, p),
        Keyword::Var => in_section(h, Section::VarType, p),
        Keyword::Enddefinitions => in_section(h, Section::Ending, p),
        Keyword::Unknown => stop_at(h, 40, p),
    }
}

#[tactic(auto, unfolding(crate::specs::Header::text_step))]
fn text_step(t: &[u8], h: Head) -> Head
    ensures { result ≡ text_step t.now h }
{
    if is_end(t) {
        return in_section(h, Section::Outside, 0);
    }
    h
}

#[tactic(auto, unfolding(crate::specs::Header::count_step))]
fn count_step(t: &[u8], h: Head, p: usize) -> Head
    ensures { result ≡ count_step t.now h p }
{
    let unit = h.unit;
    if is_end(t) {
        return faulty(h);
    }
    let count = count_of(t);
    if 0 < count {
        return with_unit(h, Section::Letters, p, count, unit.unit);
    }
    let joined = joined_of(t);
    if 0 < joined {
        return with_unit(h, Section::UnitEnd, p, joined, unit.unit);
    }
    stop_at(h, 40, p)
}

#[tactic(auto, unfolding(crate::specs::Header::letters_step))]
fn letters_step(t: &[u8], h: Head) -> Head
    ensures { result ≡ letters_step t.now h }
{
    let unit = h.unit;
    let letters = letters_of(t);
    if 0 < letters {
        return with_unit(
            h,
            Section::UnitEnd,
            unit.first,
            scaled(unit.scale, t),
            unit.unit,
        );
    }
    stop_at(h, 40, unit.first)
}

#[tactic(auto, unfolding(crate::specs::Header::unit_step))]
fn unit_step(t: &[u8], h: Head) -> Head
    ensures { result ≡ unit_step t.now h }
{
    let unit = h.unit;
    if is_end(t) {
        return with_unit(h, Section::Outside, 0, 0, unit.scale);
    }
    stop_at(h, 40, unit.first)
}

#[tactic(auto, unfolding(crate::specs::Header::scope_step))]
fn scope_step(t: &[u8], h: Head) -> Head
    ensures { result ≡ scope_step t.now h }
{
    if is_scope(t) {
        return in_section(h, Section::ScopeName, h.mark);
    }
    faulty(h)
}

#[tactic(auto, unfolding(crate::specs::Header::scope_name_step))]
fn scope_name_step(t: &[u8], h: Head) -> Head
    ensures { result ≡ scope_name_step t.now h }
{
    if is_name(t) {
        return in_section(h, Section::Closing, h.mark);
    }
    faulty(h)
}

#[tactic(auto, unfolding(crate::specs::Header::type_as))]
fn type_as(sort: Sort, h: Head) -> Head
    ensures { result ≡ type_as sort h }
{
    match sort {
        Sort::Digital => with_variable(h, Section::VarSize, variable_read(0, 0, 0, 0, true, false)),
        Sort::Real => with_variable(h, Section::VarSize, variable_read(0, 0, 0, 0, false, false)),
        Sort::Neither => faulty(h),
    }
}

fn size_one(n: u64, scalar: bool) -> bool
    ensures { result ≡ pick (eqb n 1) scalar false }
{
    n == 1 && scalar
}

#[tactic(auto, unfolding(crate::specs::Header::size_as))]
fn size_as(size: Result<u64, NumberError>, h: Head) -> Head
    ensures { result ≡ size_as size h }
{
    let variable = h.variable;
    match size {
        Err(NumberError::Bad) => faulty(h),
        Err(NumberError::Big) => with_variable(
            h,
            Section::VarCode,
            variable_read(0, 0, 0, 0, false, false),
        ),
        Ok(n) => with_variable(
            h,
            Section::VarCode,
            variable_read(0, 0, 0, 0, size_one(n, variable.scalar), false),
        ),
    }
}

#[tactic(auto, unfolding(crate::specs::Header::code_step))]
fn code_step(t: &[u8], h: Head, p: usize, e: usize) -> Head
    ensures { result ≡ code_step t.now h p e }
{
    let variable = h.variable;
    if is_name(t) {
        return with_variable(
            h,
            Section::VarName,
            variable_read(p, e, 0, 0, variable.scalar, false),
        );
    }
    faulty(h)
}

fn pin_if(scalar: bool, t: &[u8]) -> u8
    ensures { result ≡ pick scalar (pin_of t.now) 0 }
{
    if scalar {
        return pin_of(t);
    }
    0
}

#[tactic(auto, unfolding(crate::specs::Header::name_step))]
fn name_step(t: &[u8], h: Head) -> Head
    ensures { result ≡ name_step t.now h }
{
    let v = h.variable;
    if is_name(t) {
        return with_variable(
            h,
            Section::VarIndex,
            variable_read(v.from, v.to, pin_if(v.scalar, t), 0, v.scalar, false),
        );
    }
    faulty(h)
}

#[tactic(auto, unfolding(crate::specs::Header::whole_step))]
fn whole_step(h: Head) -> Head
    ensures { result ≡ whole_step h }
{
    let v = h.variable;
    if v.index == 0 {
        return with_variable(
            h,
            Section::Outside,
            variable_read(v.from, v.to, v.pin, 0, v.scalar, true),
        );
    }
    if v.index == 7 {
        return with_variable(
            h,
            Section::Outside,
            variable_read(v.from, v.to, 0, 0, v.scalar, true),
        );
    }
    faulty(h)
}

#[tactic(auto, unfolding(crate::specs::Header::index_step))]
fn index_step(t: &[u8], h: Head) -> Head
    ensures { result ≡ index_step t.now h }
{
    let v = h.variable;
    if is_end(t) {
        return whole_step(h);
    }
    let index = index_state(v.index, t);
    if index == 9 {
        return faulty(h);
    }
    with_variable(
        h,
        Section::VarIndex,
        variable_read(v.from, v.to, v.pin, index, v.scalar, false),
    )
}

#[tactic(auto, unfolding(crate::specs::Header::ending_step))]
fn ending_step(t: &[u8], h: Head, e: usize) -> Head
    ensures { result ≡ ending_step t.now h e }
{
    if is_end(t) {
        return stop_at(h, 0, e);
    }
    faulty(h)
}

// A token from place p to place e, by section.
#[tactic(auto, unfolding(crate::specs::Header::step_as))]
pub fn step(section: Section, t: &[u8], h: Head, p: usize, e: usize) -> Head
    ensures { result ≡ step_as section t.now h p e }
{
    match section {
        Section::Outside => keyword_step(keyword_of(t), h, p),
        Section::Text => text_step(t, h),
        Section::Count => count_step(t, h, p),
        Section::Letters => letters_step(t, h),
        Section::UnitEnd => unit_step(t, h),
        Section::ScopeType => scope_step(t, h),
        Section::ScopeName => scope_name_step(t, h),
        Section::VarType => type_as(sort_of(t), h),
        Section::VarSize => size_as(vcd_text::decimal(t), h),
        Section::VarCode => code_step(t, h, p, e),
        Section::VarName => name_step(t, h),
        Section::VarIndex => index_step(t, h),
        Section::Closing => closing(t, h),
        Section::Ending => ending_step(t, h, e),
    }
}

// The end of a file of a size.
#[tactic(auto, unfolding(crate::specs::Header::end_as))]
pub fn end(h: Head, size: usize) -> Head
    ensures { result ≡ end_as h.section h size }
{
    match h.section {
        Section::Outside => stop_at(h, 0, size),
        Section::Letters => stop_at(h, 40, h.unit.first),
        _ => faulty(h),
    }
}

// Before the first token.
pub fn fresh() -> Head
    ensures { result ≡ fresh_head }
{
    let unit = Unit {
        first: 0,
        scale: 0,
        unit: 0,
    };
    let variable = variable_read(0, 0, 0, 0, false, false);
    let close = Close {
        place: 0,
        number: 0,
        stop: false,
    };
    Head {
        mark: 0,
        entries: 0,
        unit,
        variable,
        close,
        section: Section::Outside,
    }
}
