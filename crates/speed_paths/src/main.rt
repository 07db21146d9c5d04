//! Prints what the choice of totals comes to on a large graph of a given shape. How long `choose` and `check` take is
//! printed on standard error.
//!
//! `chain VERTICES` is a chain in which three arcs leave each vertex. `nest DEPTH WIDTH COUNT TOTALS` is a row of loops,
//! in each of which stand so many loops, and so on up to a depth.
#![tactic(auto)]

mod draft;
mod shapes;

use anyhow::{Context, Result, bail, ensure};
use path_graph::{Graph, fit, has_natural_finishes, is_bounded, is_graph};
use path_problem::{Choice, check, choose};
use shapes::{Sizes, chain, nest};
use std::alloc::Global;
use std::env;
use std::time::Instant;

/// The number of a word.
fn number(word: Option<String>) -> Result<u32> {
    let word = word.context("a number is missing")?;
    word.as_str()
        .parse::<u32>()
        .context("a number below 2^32 is wanted")
}

/// The graph that the command line asks for.
fn graph_of(rt: &HostRuntime) -> Result<Graph> {
    let mut words = env::args(rt)?.skip(1);
    let shape = words.next().context("a shape is missing")?;
    match shape.as_str() {
        "chain" => chain(rt.alloc(), number(words.next())?),
        "nest" => {
            let sizes = Sizes {
                depth: number(words.next())?,
                width: number(words.next())?,
                count: number(words.next())?,
                totals: number(words.next())?,
            };
            nest(rt.alloc(), sizes)
        }
        _ => bail!("no shape"),
    }
}

/// The choice, which is checked.
fn choice_of(rt: &HostRuntime, alloc: Global, graph: &Graph) -> Result<Choice> {
    ensure!(is_graph(alloc, graph)?, "no graph");
    ensure!(is_bounded(graph), "no bounded graph");
    ensure!(has_natural_finishes(graph), "no finish below 0 is wanted");
    let start = Instant::now(rt)?;
    let choice = choose(alloc, graph)?;
    let elapsed = start.elapsed(rt)?.as_millis();
    eprintln!(rt; "choose: {elapsed} ms")?;
    let prices = &choice.prices;
    let potentials = choice.potentials.as_slice();
    ensure!(fit(graph, prices, potentials), "no prices and potentials");
    let start = Instant::now(rt)?;
    check(graph, prices, potentials)?;
    let elapsed = start.elapsed(rt)?.as_millis();
    eprintln!(rt; "check: {elapsed} ms")?;
    Ok(choice)
}

/// How many totals are chosen.
fn count_of(chosen: &[bool]) -> usize {
    let mut count = 0usize;
    for is_chosen in chosen {
        if *is_chosen {
            count = count.saturating_add(1);
        }
    }
    count
}

fn main(rt: HostRuntime) -> Result<()> {
    let graph = graph_of(&rt)?;
    let choice = choice_of(&rt, rt.alloc(), &graph)?;
    let vertices = graph.finish.len();
    let arcs = graph.arcs.len();
    let loops = graph.loops.len();
    println!(rt; "vertices {vertices}, arcs {arcs}, loops {loops}")?;
    let chosen = count_of(choice.chosen.as_slice());
    println!(rt; "totals chosen {chosen}")?;
    if let Some(potential) = choice.potentials.as_slice().first() {
        println!(rt; "potential {potential} of the first vertex")?;
    }
    if let Some(price) = choice.prices.loops.as_slice().last() {
        println!(rt; "price {price} of the last loop")?;
    }
    Ok(())
}
