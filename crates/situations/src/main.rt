// The test program: runs the situations that are not computed from the written rules, those of restoring, RFC 3629's
// examples and the largest lines, and prints under each sentence what came of it.
#![tactic(auto)]

mod calls;
mod encoding;
mod limits;
mod print;
mod trips;
mod turns;

fn main(rt: HostRuntime) {
    limits::sender_full(&rt);
    let full = limits::document_full(&rt);
    trips::save_twice(&rt, full);
    limits::last_clock(&rt);
    limits::drained(&rt);
    turns::brought_back(&rt);
    turns::toggles_used_up(&rt);
    trips::largest(&rt);
    encoding::examples(&rt);
    encoding::boundaries(&rt);
    encoding::controls(&rt);
}
