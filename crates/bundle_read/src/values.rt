// Single values: texts, truth values, words and numbers.

ghost use Rattle.std.specs.Prelude.{◌≡◌};
ghost use Rattle.bundle_read.specs.Readings as spec;
ghost use Rattle.bundle_read.specs.Words as words;
ghost use Rattle.bundle_read.specs.Bundles as bundle;
ghost use Rattle.bundle_read.specs.Readings.{Tells};
ghost use Rattle.serde_json.specs.View.{view, number_view};

use crate::fault::{BundleFault, wrong};
use crate::read::Entry;
use apex_num::Text;
use apex_requests::Op;
use apex_schema::{Access, RollupBy};
use civil_dates::read_moment;
use fault_words::FaultWord;
use schema_plans::{PlanKind, PlanLength};
use serde_json::{Number, Value};
use std::alloc::Global;

// A text, where the value is one.
fn str_in(alloc: Global, value: &Value) -> Result<&str, BundleFault>
    ensures { spec.Shows result (bundle.text (view value.now)) }
{
    match value.as_str() {
        Some(text) => Ok(text),
        None => Err(wrong(alloc, FaultWord::WrongKind)),
    }
}

// A number, where the value is one.
fn number_in(alloc: Global, value: &Value) -> Result<&Number, BundleFault>
    ensures { spec.ShowsNumber result (bundle.num (view value.now)) }
{
    match value.as_number() {
        Some(number) => Ok(number),
        None => Err(wrong(alloc, FaultWord::WrongKind)),
    }
}

// One of the values that may stand there.
fn one_of<T>(alloc: Global, value: Option<T>) -> Result<T, BundleFault>
    ensures { Tells result (spec.of_values value) }
{
    match value {
        Some(value) => Ok(value),
        None => Err(wrong(alloc, FaultWord::BadValue)),
    }
}

impl Entry for Text {
    ghost use Rattle.bundle_read.specs.Bundles as bundle;

    ghost reads = { bundle.text };

    fn read(alloc: Global, value: &Value) -> Result<Text, BundleFault> {
        let text = str_in(alloc, value)?;
        Ok(Text::from_str(alloc, text)?)
    }
}

impl Entry for bool {
    ghost use Rattle.bundle_read.specs.Bundles as bundle;

    ghost reads = { bundle.truth };

    fn read(alloc: Global, value: &Value) -> Result<bool, BundleFault> {
        match value.as_bool() {
            Some(truth) => Ok(truth),
            None => Err(wrong(alloc, FaultWord::WrongKind)),
        }
    }
}

fn access_of(word: &str) -> Option<Access>
    ensures { result ≡ words.meaning words.access_words word.now }
{
    if word == "Private" {
        return Some(Access::Nothing);
    }
    if word == "Read" {
        return Some(Access::Read);
    }
    if word == "Edit" {
        return Some(Access::Edit);
    }
    None
}

fn by_of(word: &str) -> Option<RollupBy>
    ensures { result ≡ words.meaning words.by_words word.now }
{
    if word == "COUNT" {
        return Some(RollupBy::Count);
    }
    if word == "SUM" {
        return Some(RollupBy::Sum);
    }
    if word == "MIN" {
        return Some(RollupBy::Min);
    }
    if word == "MAX" {
        return Some(RollupBy::Max);
    }
    None
}

fn op_of(word: &str) -> Option<Op>
    ensures { result ≡ words.meaning words.op_words word.now }
{
    if word == "insert" {
        return Some(Op::Insert);
    }
    if word == "update" {
        return Some(Op::Update);
    }
    if word == "delete" {
        return Some(Op::Delete);
    }
    if word == "upsert" {
        return Some(Op::Upsert);
    }
    None
}

fn kind_of(word: &str) -> Option<PlanKind>
    ensures { result ≡ words.meaning words.kind_words word.now }
{
    if word == "Text" {
        return Some(PlanKind::Text);
    }
    if word == "Number" {
        return Some(PlanKind::Number);
    }
    if word == "Checkbox" {
        return Some(PlanKind::Checkbox);
    }
    if word == "Date" {
        return Some(PlanKind::Date);
    }
    if word == "Datetime" {
        return Some(PlanKind::Datetime);
    }
    if word == "Lookup" {
        return Some(PlanKind::Lookup);
    }
    if word == "MasterDetail" {
        return Some(PlanKind::MasterDetail);
    }
    if word == "Rollup" {
        return Some(PlanKind::Rollup);
    }
    None
}

impl Entry for Access {
    ghost use Rattle.bundle_read.specs.Bundles as bundle;

    ghost reads = { bundle.access };

    fn read(alloc: Global, value: &Value) -> Result<Access, BundleFault> {
        let word = str_in(alloc, value)?;
        one_of(alloc, access_of(word))
    }
}

impl Entry for RollupBy {
    ghost use Rattle.bundle_read.specs.Bundles as bundle;

    ghost reads = { bundle.by };

    fn read(alloc: Global, value: &Value) -> Result<RollupBy, BundleFault> {
        let word = str_in(alloc, value)?;
        one_of(alloc, by_of(word))
    }
}

impl Entry for Op {
    ghost use Rattle.bundle_read.specs.Bundles as bundle;

    ghost reads = { bundle.op };

    fn read(alloc: Global, value: &Value) -> Result<Op, BundleFault> {
        let word = str_in(alloc, value)?;
        one_of(alloc, op_of(word))
    }
}

impl Entry for PlanKind {
    ghost use Rattle.bundle_read.specs.Bundles as bundle;

    ghost reads = { bundle.kind };

    fn read(alloc: Global, value: &Value) -> Result<PlanKind, BundleFault> {
        let word = str_in(alloc, value)?;
        one_of(alloc, kind_of(word))
    }
}

fn version_of(number: &Number) -> Option<u32>
    ensures { result ≡ words.version_of (number_view number.now) }
{
    match number.as_u64() {
        Some(1) => Some(1),
        _ => None,
    }
}

/// A version is the one number of this type.
impl Entry for u32 {
    ghost use Rattle.bundle_read.specs.Bundles as bundle;

    ghost reads = { bundle.version };

    fn read(alloc: Global, value: &Value) -> Result<u32, BundleFault> {
        let number = number_in(alloc, value)?;
        one_of(alloc, version_of(number))
    }
}

fn length_of(number: &Number) -> PlanLength
    ensures { result ≡ words.length_of (number_view number.now) }
{
    match number.as_u64() {
        Some(n) => PlanLength::Whole(n),
        None => PlanLength::Other,
    }
}

impl Entry for PlanLength {
    ghost use Rattle.bundle_read.specs.Bundles as bundle;

    ghost reads = { bundle.length };

    fn read(alloc: Global, value: &Value) -> Result<PlanLength, BundleFault> {
        let number = number_in(alloc, value)?;
        Ok(length_of(number))
    }
}

/// A moment is the one number of this type.
impl Entry for i64 {
    ghost use Rattle.bundle_read.specs.Bundles as bundle;

    ghost reads = { bundle.now };

    fn read(alloc: Global, value: &Value) -> Result<i64, BundleFault> {
        let text = str_in(alloc, value)?;
        one_of(alloc, read_moment(text.as_bytes()))
    }
}
