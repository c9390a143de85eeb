// Runs both searches on the cases of the scope document and writes what each answers, one line a case.
#![tactic(auto)]

mod ask;
mod crowd;
mod damage;
mod limits;
mod reference;
mod rooms;
mod sheets;
mod show;
mod trips;

fn main(rt: HostRuntime) {
    let stdout = rt.stdout();
    trips::run(&stdout);
    crowd::run(&stdout);
    limits::run(&stdout);
    damage::run(&stdout);
}
