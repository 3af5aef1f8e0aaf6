// Prints the verdict and the counts of the rule in rule.txt on the pool in pool.txt, or the refusal.
#![tactic(auto)]

fn main(rt: HostRuntime) {
    session::run(&rt, b"rule.txt", b"pool.txt");
}
