//! Generated jobs.
ghost use Rattle.std.specs.Prelude.{◌≡◌, ◌<◌};
ghost use Rattle.job_gen.specs.Generated.{derivation_job, chain_job, proof_job, building_job, job_data};
ghost use Rattle.json_text.specs.Tokens.{data_tokens, Adds};

use crate::chains::put_nodes;
use crate::derivations::put_steps;
use crate::members::{put_name, put_numbers, put_text};
use json_text::JsonText;
use std::alloc::Global;

fn put_derivation_job(out: &mut JsonText, alloc: Global, i: u64, cuts: u64)
    requires { cuts < 16 }
    ensures { Adds out.old out.new (data_tokens (derivation_job i cuts)) }
{
    out.begin_object();
    out.key("job");
    put_name(out, alloc, i);
    put_text(out, "op", "lk");
    out.key("steps");
    put_steps(out, cuts);
    out.end_object();
}

fn put_chain_job(out: &mut JsonText, alloc: Global, i: u64, implications: u64)
    requires { implications < 9 }
    ensures { Adds out.old out.new (data_tokens (chain_job i implications)) }
{
    out.begin_object();
    out.key("job");
    put_name(out, alloc, i);
    put_numbers(out, "left", &[3 * implications + 1, 3 * implications]);
    out.key("nodes");
    put_nodes(out, alloc, implications);
    put_text(out, "op", "expansion");
    put_numbers(out, "right", &[3 * implications + 2]);
    out.end_object();
}

fn put_proof_job(out: &mut JsonText, alloc: Global, op: &str, i: u64, proof: u64)
    ensures { Adds out.old out.new (data_tokens (proof_job op.now i proof)) }
{
    out.begin_object();
    out.key("job");
    put_name(out, alloc, i);
    put_text(out, "op", op);
    out.key("proof");
    put_name(out, alloc, proof);
    out.end_object();
}

fn put_building_job(out: &mut JsonText, alloc: Global, i: u64, expansion: u64)
    ensures { Adds out.old out.new (data_tokens (building_job i expansion)) }
{
    out.begin_object();
    out.key("expansion");
    put_name(out, alloc, expansion);
    out.key("job");
    put_name(out, alloc, i);
    put_text(out, "op", "fromexp");
    out.end_object();
}

/// The job of line i.
pub fn put_job(out: &mut JsonText, alloc: Global, i: u64)
    ensures { Adds out.old out.new (data_tokens (job_data i)) }
{
    match i % 8 {
        0 => put_derivation_job(out, alloc, i, i / 8 % 16),
        1 => put_proof_job(out, alloc, "cutelim", i, i - 1),
        2 => put_proof_job(out, alloc, "expand", i, i - 1),
        3 => put_building_job(out, alloc, i, i - 1),
        4 => put_chain_job(out, alloc, i, 2 + i / 8 % 7),
        5 => put_building_job(out, alloc, i, i - 1),
        6 => put_proof_job(out, alloc, "cutintro", i, i - 1),
        _ => put_proof_job(out, alloc, "herbrand", i, i - 2),
    }
}
