//! Writes one row of a table while it is read: the member at a key, by the row's rule.

ghost use Rattle.std.specs.Prelude.{◌≡◌, IfErr, IfOk, None, Some, if◌then◌else◌};
ghost use Rattle.serde_json.specs.Data.{no_members, member};
ghost use Rattle.serde_json.specs.Find.{as_array};
ghost use Rattle.sentry_json.specs.Nodes.{items_data};
ghost use Rattle.sentry_tables.specs.Cell.{text};
ghost use Rattle.sentry_tables.specs.Cells.{empty_list, empty_map};
ghost use Rattle.sentry_tables.specs.Kind.{must, may, may_null, may_strict, default as default_rule, always, list as list_kind, map as map_kind, values as values_kind};
ghost use Rattle.sentry_tables.specs.Kinds.{text_kind};
ghost use Rattle.sentry_tables.specs.Passed.{PassesItemsAt};
ghost use Rattle.sentry_tables.specs.Reading.{Only};
ghost use Rattle.sentry_moments.specs.Moments.{moment_cell};
ghost use Rattle.sentry_tables.specs.Shows.{values_in};
ghost use Rattle.sentry_tables.specs.Writes.{written, WritesMembers};
ghost use Rattle.sentry_rows.specs.Fields.{read_of};
ghost use Rattle.sentry_rows.specs.Passed.{Gives, PassesMember, PassesRow, PassesRowAt, PassesList, PassesListAt};

use crate::reader::Reader;
use crate::timed::FromTreeAt;
use rand_core::Rng;
use sentry_json::{Node, Writer};
use sentry_moments::Moment;
use sentry_tables::member::Usual;
use sentry_tables::pass::{pass_items, pass_members};
use sentry_tables::read::members_of;
use sentry_tables::{Codec, FromTree, Own, ReadCodec, TreeError};
use std::alloc::Global;

// Writes the value at a node as a member.
#[tactic(auto, using(crate::proofs::PassedRows::member_passed))]
#[inline(always)]
fn pass_member<F: ReadCodec<X>, X: Drop, N: Node>(
    alloc: Global,
    key: &str,
    node: &N,
    out: &mut Writer,
) -> Result<(), TreeError>
    ensures { PassesMember F.kind key.now (N.data_of node.now) result out.old out.new }
{
    out.key(key)?;
    F::pass(alloc, node, out)?;
    Ok(())
}

// Writes a required member; `Misfit` if absent.
#[tactic(auto, using(crate::proofs::RowLemmas::must_missing, crate::proofs::PassedRows::must_passed))]
#[inline(always)]
pub(crate) fn pass_required<F: ReadCodec<X>, X: Drop, N: Node>(
    from: &Reader<'_, N>,
    key: &str,
    out: &mut Writer,
) -> Result<(), TreeError>
    ensures { PassesRow key.now must F.kind (read_of N.data_of from.now) result out.old out.new }
{
    let Some(member) = from.object.get(key) else {
        return Err(TreeError::Misfit);
    };
    pass_member::<F, X, N>(from.alloc, key, member, out)
}

// Writes an optional member; nothing if absent or null.
#[tactic(auto, using(crate::proofs::PassedRows::may_left, crate::proofs::PassedRows::may_null_left, crate::proofs::PassedRows::may_passed))]
#[inline(always)]
pub(crate) fn pass_optional<F: ReadCodec<X>, X: Drop, N: Node>(
    from: &Reader<'_, N>,
    key: &str,
    out: &mut Writer,
) -> Result<(), TreeError>
    ensures { PassesRow key.now may F.kind (read_of N.data_of from.now) result out.old out.new }
{
    let Some(member) = from.object.get(key) else {
        return Ok(());
    };
    if member.is_null() {
        return Ok(());
    }
    pass_member::<F, X, N>(from.alloc, key, member, out)
}

// Writes an optional member; nothing if absent.
#[tactic(auto, using(crate::proofs::PassedRows::strict_left, crate::proofs::PassedRows::strict_passed))]
#[inline(always)]
pub(crate) fn pass_strict<F: ReadCodec<X>, X: Drop, N: Node>(
    from: &Reader<'_, N>,
    key: &str,
    out: &mut Writer,
) -> Result<(), TreeError>
    ensures { PassesRow key.now may_strict F.kind (read_of N.data_of from.now)
        result out.old out.new }
{
    let Some(member) = from.object.get(key) else {
        return Ok(());
    };
    pass_member::<F, X, N>(from.alloc, key, member, out)
}

// Writes a value as a member, unless it is omitted.
#[tactic(auto, using(sentry_tables::specs::Continued::no_members_wrote))]
#[inline(always)]
pub(crate) fn give_unless<F: Codec<X>, X>(
    omitted: bool,
    key: &str,
    value: &X,
    out: &mut Writer,
) -> Result<(), TreeError>
    ensures { Gives (if omitted then no_members
        else member key.now (written F.kind (F.cell_of value.now)) no_members)
        result out.old out.new }
{
    if omitted {
        return Ok(());
    }
    out.key(key)?;
    F::write(value, out)?;
    Ok(())
}

// Writes an optional member; null if absent or null.
#[tactic(auto, using(crate::proofs::PassedRows::or_null_absent, crate::proofs::PassedRows::or_null_null, crate::proofs::PassedRows::or_null_passed))]
#[inline(always)]
pub(crate) fn pass_optional_or_null<X: FromTree, N: Node>(
    from: &Reader<'_, N>,
    key: &str,
    out: &mut Writer,
) -> Result<(), TreeError>
    ensures { PassesRow key.now may_null X.kind (read_of N.data_of from.now)
        result out.old out.new }
{
    let Some(member) = from.object.get(key) else {
        out.key(key)?;
        out.null()?;
        return Ok(());
    };
    if member.is_null() {
        out.key(key)?;
        out.null()?;
        return Ok(());
    }
    pass_member::<Own, X, N>(from.alloc, key, member, out)
}

// Writes a member; nothing if its normal form is `default`, which stands if absent.
#[tactic(auto, using(crate::proofs::PassedRows::or_absent, crate::proofs::PassedRows::or_passed, crate::proofs::PassedRows::default_fails))]
#[inline(always)]
pub(crate) fn pass_or<X: FromTree + Usual, N: Node>(
    from: &Reader<'_, N>,
    key: &str,
    default: &X,
    out: &mut Writer,
) -> Result<(), TreeError>
    ensures { PassesRow key.now (default_rule (X.cell_of default.now)) X.kind
        (read_of N.data_of from.now) result out.old out.new }
{
    let Some(member) = from.object.get(key) else {
        give_unless::<Own, X>(default.is(default), key, default, out)?;
        return Ok(());
    };
    let value = X::from_node(from.alloc, member)?;
    give_unless::<Own, X>(value.is(default), key, &value, out)?;
    Ok(())
}

// Writes a member that is always written; `default` if absent.
#[tactic(auto, using(crate::proofs::PassedRows::always_absent, crate::proofs::PassedRows::always_passed))]
#[inline(always)]
pub(crate) fn pass_written_or<X: FromTree, N: Node>(
    from: &Reader<'_, N>,
    key: &str,
    default: &X,
    out: &mut Writer,
) -> Result<(), TreeError>
    ensures { PassesRow key.now (always (X.cell_of default.now)) X.kind (read_of N.data_of from.now)
        result out.old out.new }
{
    let Some(member) = from.object.get(key) else {
        give_unless::<Own, X>(false, key, default, out)?;
        return Ok(());
    };
    pass_member::<Own, X, N>(from.alloc, key, member, out)
}

// Writes a string; nothing if absent or equal to `default`.
#[tactic(auto, using(crate::proofs::PassedRows::text_absent, crate::proofs::PassedRows::text_same, crate::proofs::PassedRows::text_other, crate::proofs::PassedRows::text_fails))]
#[inline(always)]
pub(crate) fn pass_text_or<N: Node>(
    from: &Reader<'_, N>,
    key: &str,
    default: &str,
    out: &mut Writer,
) -> Result<(), TreeError>
    ensures { PassesRow key.now (default_rule (text default.now)) text_kind
        (read_of N.data_of from.now) result out.old out.new }
{
    let Some(member) = from.object.get(key) else {
        return Ok(());
    };
    let Some(text) = member.as_str() else {
        return Err(TreeError::Misfit);
    };
    if text == default {
        return Ok(());
    }
    out.key(key)?;
    out.string(text)?;
    Ok(())
}

// Writes the items of a list as a member.
#[tactic(auto, using(crate::proofs::PassedRows::list_at_key))]
fn pass_list_at<X: FromTree, N: Node>(
    alloc: Global,
    key: &str,
    items: &[N],
    out: &mut Writer,
) -> Result<(), TreeError>
    ensures { PassesList X.kind key.now (items_data N.data_of items.now) result out.old out.new }
{
    out.key(key)?;
    out.begin_array()?;
    pass_items::<X, N>(alloc, items, out)?;
    out.end_array()?;
    Ok(())
}

// Returns the items of an array.
fn items_of<N: Node>(alloc: Global, node: &N) -> Result<Vec<N>, TreeError>
    ensures ok { IfOk result (λ items.
        as_array (N.data_of node.now) ≡ Some (items_data N.data_of items.items)) }
    ensures err { IfErr result (λ e. Only e (as_array (N.data_of node.now) ≡ None)) }
{
    node.items(alloc)?.ok_or(TreeError::Misfit)
}

// Writes a list; nothing if absent or empty.
#[inline(always)]
pub(crate) fn pass_list<X: FromTree, N: Node>(
    from: &Reader<'_, N>,
    key: &str,
    out: &mut Writer,
) -> Result<(), TreeError>
    ensures { PassesRow key.now (default_rule empty_list) (list_kind X.kind)
        (read_of N.data_of from.now) result out.old out.new }
{
    let Some(member) = from.object.get(key) else {
        return Ok(());
    };
    let items = items_of(from.alloc, member)?;
    if items.is_empty() {
        return Ok(());
    }
    pass_list_at::<X, N>(from.alloc, key, &items, out)
}

// Writes a map; nothing if absent or empty.
#[inline(always)]
pub(crate) fn pass_map<X: FromTree, N: Node>(
    from: &Reader<'_, N>,
    key: &str,
    out: &mut Writer,
) -> Result<(), TreeError>
    ensures { PassesRow key.now (default_rule empty_map) (map_kind X.kind)
        (read_of N.data_of from.now) result out.old out.new }
{
    let Some(member) = from.object.get(key) else {
        return Ok(());
    };
    let members = members_of(from.alloc, member)?;
    if members.is_empty() {
        return Ok(());
    }
    out.key(key)?;
    out.begin_object()?;
    pass_members::<X, N>(from.alloc, &members, out)?;
    out.end_object()?;
    Ok(())
}

// Writes a list that is always written; empty if absent.
#[tactic(auto, using(crate::proofs::PassedRows::no_list_written, crate::proofs::PassedRows::always_passed))]
#[inline(always)]
pub(crate) fn pass_written_list<X: FromTree, N: Node>(
    from: &Reader<'_, N>,
    key: &str,
    out: &mut Writer,
) -> Result<(), TreeError>
    ensures { PassesRow key.now (always empty_list) (list_kind X.kind)
        (read_of N.data_of from.now) result out.old out.new }
{
    let Some(member) = from.object.get(key) else {
        out.key(key)?;
        out.begin_array()?;
        out.end_array()?;
        return Ok(());
    };
    pass_member::<Own, Vec<X>, N>(from.alloc, key, member, out)
}

// Returns the items of an array, or of the array at the key `values` of an object.
#[tactic(auto, using(crate::proofs::PassedRows::bare_items, crate::proofs::PassedRows::no_values, crate::proofs::PassedRows::values_items))]
fn values_of<N: Node>(alloc: Global, node: &N) -> Result<Vec<N>, TreeError>
    ensures ok { IfOk result (λ items.
        values_in (N.data_of node.now) ≡ Some (items_data N.data_of items.items)) }
    ensures err { IfErr result (λ e. Only e (values_in (N.data_of node.now) ≡ None)) }
{
    if node.is_array() {
        return node.items(alloc)?.ok_or(TreeError::Misfit);
    }
    let list = node.get("values").ok_or(TreeError::Misfit)?;
    list.items(alloc)?.ok_or(TreeError::Misfit)
}

// Writes a list under the key `values`; nothing if absent or empty.
#[inline(always)]
pub(crate) fn pass_values<X: FromTree, N: Node>(
    from: &Reader<'_, N>,
    key: &str,
    out: &mut Writer,
) -> Result<(), TreeError>
    ensures { PassesRow key.now (default_rule empty_list) (values_kind X.kind)
        (read_of N.data_of from.now) result out.old out.new }
{
    let Some(member) = from.object.get(key) else {
        return Ok(());
    };
    let items = values_of(from.alloc, member)?;
    if items.is_empty() {
        return Ok(());
    }
    out.key(key)?;
    out.begin_object()?;
    pass_list_at::<X, N>(from.alloc, "values", &items, out)?;
    out.end_object()?;
    Ok(())
}

// Writes the values that items show at the moment `now`, in order, without the brackets round them.
fn pass_items_at<X: FromTreeAt, N: Node, R: Rng>(
    alloc: Global,
    items: &[N],
    now: Moment,
    ids: &mut R,
    out: &mut Writer,
) -> Result<(), TreeError>
    ensures { PassesItemsAt (moment_cell now) X.kind (items_data N.data_of items.now)
        result out.old out.new }
{
    for item in items {
        X::pass(alloc, item, now, ids, out)?;
    }
    Ok(())
}

// Writes the items of a list as a member.
fn pass_list_at_moment<X: FromTreeAt, N: Node, R: Rng>(
    alloc: Global,
    key: &str,
    items: &[N],
    now: Moment,
    ids: &mut R,
    out: &mut Writer,
) -> Result<(), TreeError>
    ensures { PassesListAt (moment_cell now) X.kind key.now (items_data N.data_of items.now)
        result out.old out.new }
{
    out.key(key)?;
    out.begin_array()?;
    pass_items_at::<X, N, R>(alloc, items, now, ids, out)?;
    out.end_array()?;
    Ok(())
}

// Writes a required list; `Misfit` if absent.
#[inline(always)]
pub(crate) fn pass_required_list_at<X: FromTreeAt, N: Node, R: Rng>(
    from: &Reader<'_, N>,
    key: &str,
    now: Moment,
    ids: &mut R,
    out: &mut Writer,
) -> Result<(), TreeError>
    ensures { PassesRowAt (moment_cell now) key.now must (list_kind X.kind)
        (read_of N.data_of from.now) result out.old out.new }
{
    let Some(member) = from.object.get(key) else {
        return Err(TreeError::Misfit);
    };
    let items = items_of(from.alloc, member)?;
    pass_list_at_moment::<X, N, R>(from.alloc, key, &items, now, ids, out)
}

// Writes a list under the key `values`; nothing if absent or empty.
#[inline(always)]
pub(crate) fn pass_values_at<X: FromTreeAt, N: Node, R: Rng>(
    from: &Reader<'_, N>,
    key: &str,
    now: Moment,
    ids: &mut R,
    out: &mut Writer,
) -> Result<(), TreeError>
    ensures { PassesRowAt (moment_cell now) key.now (default_rule empty_list) (values_kind X.kind)
        (read_of N.data_of from.now) result out.old out.new }
{
    let Some(member) = from.object.get(key) else {
        return Ok(());
    };
    let items = values_of(from.alloc, member)?;
    if items.is_empty() {
        return Ok(());
    }
    out.key(key)?;
    out.begin_object()?;
    pass_list_at_moment::<X, N, R>(from.alloc, "values", &items, now, ids, out)?;
    out.end_object()?;
    Ok(())
}
