ghost use Rattle.std.specs.Prelude.{◌≡◌, ◌≢◌, ◌<◌, ◌≤◌, ℕ, IfOk};
ghost use Rattle.bao_types.specs.ByteRange.{address_space_end, end};
ghost use Rattle.region_list.specs.Layers.{AreInSpace, class_in, class_over, IsInSpace};
ghost use Rattle.region_list.specs.Runs.{AreMaximalRuns};

use crate::Run;
use bao_types::{ADDRESS_SPACE_END, ByteRange, Class, OutOfMemory};
use std::alloc::Global;

/// The class of the byte at `at` under these layers.
pub(crate) fn class_at(layers: &[Run], at: u64) -> Class
    ensures { result ≡ class_in layers.now at }
{
    let mut class = Class::Nothing;
    for layer in layers {
        if layer.range.contains(at) {
            class = layer.class;
        }
    }
    class
}

/// The layers with `top` over them. A layer that `top` covers whole is left out, so that the list stays short.
pub(crate) fn laid_over(alloc: Global, layers: &[Run], top: Run) -> Result<Vec<Run>, OutOfMemory>
    requires layers { AreInSpace layers.now }
    requires top { IsInSpace top.range }
    ensures in_space { IfOk result (λ laid. AreInSpace laid.items) }
    ensures classes { IfOk result (λ laid.
        (at : ℕ) → class_in laid.items at ≡ class_over at (class_in layers.now at) top) }
{
    let mut laid = Vec::new(alloc);
    for layer in layers {
        if !layer.range.lies_in(&top.range) {
            laid.push(*layer).map_err(|_| OutOfMemory)?;
        }
    }
    laid.push(top).map_err(|_| OutOfMemory)?;
    Ok(laid)
}

/// The maximal runs under these layers, in address order.
pub(crate) fn runs(alloc: Global, layers: &[Run]) -> Result<Vec<Run>, OutOfMemory>
    requires { AreInSpace layers.now }
    ensures maximal { IfOk result (λ runs. AreMaximalRuns (class_in layers.now) runs.items) }
    ensures in_space { IfOk result (λ runs. AreInSpace runs.items) }
{
    let mut runs = Vec::new(alloc);
    let mut at = 0;
    while at < ADDRESS_SPACE_END {
        let end = run_end(layers, at);
        let class = class_at(layers, at);
        if class != Class::Nothing {
            let size = end - at;
            let range = ByteRange { base: at, size };
            runs.push(Run { range, class }).map_err(|_| OutOfMemory)?;
        }
        at = end;
    }
    Ok(runs)
}

/// The first byte after `at` whose class is another one, or the end of the space.
fn run_end(layers: &[Run], at: u64) -> u64
    requires layers { AreInSpace layers.now }
    requires at { at < address_space_end }
    ensures above { at < result }
    ensures in_space { result ≤ address_space_end }
    ensures equal { (byte : ℕ) → at ≤ byte → byte < result →
        class_in layers.now byte ≡ class_in layers.now at }
    ensures differs { result < address_space_end → class_in layers.now result ≢ class_in layers.now at }
{
    let class = class_at(layers, at);
    let mut end = edge_after(layers, at);
    while end < ADDRESS_SPACE_END {
        if class_at(layers, end) != class {
            return end;
        }
        end = edge_after(layers, end);
    }
    end
}

/// The first byte after `at` where a layer begins or ends, or the end of the space.
fn edge_after(layers: &[Run], at: u64) -> u64
    requires layers { AreInSpace layers.now }
    requires at { at < address_space_end }
    ensures above { at < result }
    ensures in_space { result ≤ address_space_end }
    ensures equal { (byte : ℕ) → at ≤ byte → byte < result →
        class_in layers.now byte ≡ class_in layers.now at }
{
    let mut edge = ADDRESS_SPACE_END;
    for layer in layers {
        edge = edge.min(range_edge_after(layer.range, at));
    }
    edge
}

/// The first of the range's base and end that is after `at`, or the end of the space.
fn range_edge_after(range: ByteRange, at: u64) -> u64
    requires range { IsInSpace range }
    requires at { at < address_space_end }
    ensures above { at < result }
    ensures in_space { result ≤ address_space_end }
    ensures base { at < range.base → result ≤ range.base }
    ensures last { at < end range → result ≤ end range }
{
    let end = range.end();
    if at < range.base {
        range.base
    } else if at < end {
        end
    } else {
        ADDRESS_SPACE_END
    }
}
