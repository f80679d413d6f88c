//! How many turns the task of a hostile domain takes. Clauses say how many are left at most.
use hostile_task::{HostileDomain, HostileTask};
use scenario_file::{Domain, Scenario, read};
use std::alloc::Global;
use std::test::Fail;
use task_duties::TaskTurn;
use vchan_rule::Page;

/// More turns than any of the lists of acts takes.
const MOST: u32 = 3_000;

/// How many turns the acts of the only domain of a scenario take, if its peer never reads; 0 if
/// memory runs out.
fn turns_of(alloc: Global, text: &[u8]) -> Result<u32, Fail> {
    let Scenario {
        control,
        payload,
        start,
        mut domains,
        calls: _,
    } = read(alloc, text)?;
    let Domain { hostile, .. } = domains.pop().ok_or("no domain")?;
    let acts = hostile.ok_or("an honest domain")?;
    let (page, server, _client) = Page::open(alloc, control, start)?;
    let domain = HostileDomain {
        number: 1,
        names: Vec::new(alloc),
        acts,
        control,
        payload,
    };
    let Ok(mut task) = HostileTask::new(alloc, domain, page.attach(server), Vec::new(alloc)) else {
        return Ok(0);
    };
    for turn in 1..MOST {
        task = match task.turn() {
            TaskTurn::Again(task) => task,
            TaskTurn::Done(_done) => return Ok(turn),
            TaskTurn::NoMemory { ends: _ends } => return Ok(0),
        };
    }
    Ok(MOST)
}

/// The acts of a domain, and how many turns they take with the one that retires.
const ROWS: [(&str, u32); 9] = [
    ("", 1),
    ("'hello'", 2),
    ("'rest 3', 'signal'", 5),
    ("'trigger a echo 64', 'hello'", 2_049),
    ("'say 41*2048'", 2),
    ("'say 41*2049'", 1_025),
    ("'say -', 'terminate 1 512'", 3),
    ("'scribble 7 65536'", 2),
    ("'poke a:512 cli_live 1', 'poke control left[1024] 1'", 3),
];

#[test]
fn acts_take_their_turns(rt: HostRuntime) -> Result<(), Fail> {
    let alloc = rt.alloc();
    for (acts, turns) in ROWS {
        let text = format!(in alloc; "domain = [{{name = 'evil', hostile = [{acts}]}}]")?;
        assert!(rt; turns_of(alloc, text.as_bytes())? == turns, "{acts}");
    }
    Ok(())
}
