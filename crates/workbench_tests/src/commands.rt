// Which words name which task.
use std::test::*;
use workbench::arguments::{BuildTask, Task};
use workbench::layout::Layout;

// A build without options.
fn plain() -> BuildTask<'static> {
    BuildTask {
        rack: "a",
        lanes: None,
        two_hop: false,
        root: None,
        out: None,
    }
}

#[test]
fn builds_are_named(rt: HostRuntime) {
    let words = ["build", "a"];
    assert_eq!(rt; Task::of_words(&words), Some(Task::Build(plain())));
    let full = BuildTask {
        rack: "a",
        lanes: Some(2),
        two_hop: true,
        root: Some(65535),
        out: Some("p"),
    };
    let words = [
        "build",
        "a",
        "--root",
        "65535",
        "--out",
        "p",
        "--two-hop",
        "--lanes",
        "2",
    ];
    assert_eq!(rt; Task::of_words(&words), Some(Task::Build(full)));
    // what comes later counts
    let last = BuildTask {
        root: Some(4),
        ..plain()
    };
    let words = ["build", "a", "--root", "3", "--root", "4"];
    assert_eq!(rt; Task::of_words(&words), Some(Task::Build(last)));
}

#[test]
fn checks_and_trials_are_named(rt: HostRuntime) {
    let check = |root| {
        Some(Task::Check {
            rack: "a",
            plan: "p",
            root,
        })
    };
    assert_eq!(rt; Task::of_words(&["check", "a", "p"]), check(None));
    let words = ["check", "a", "p", "--root", "3"];
    assert_eq!(rt; Task::of_words(&words), check(Some(3)));
    let dry = |depth, root| {
        Some(Task::Dry {
            rack: "a",
            plan: "p",
            depth,
            root,
        })
    };
    assert_eq!(rt; Task::of_words(&["dry", "a", "p"]), dry(1, None));
    let words = ["dry", "a", "p", "--depth", "8"];
    assert_eq!(rt; Task::of_words(&words), dry(8, None));
    let words = ["dry", "a", "p", "--root", "3"];
    assert_eq!(rt; Task::of_words(&words), dry(1, Some(3)));
    let words = ["dry", "a", "p", "--depth", "8", "--root", "3"];
    assert_eq!(rt; Task::of_words(&words), dry(8, Some(3)));
}

// A build lays its tables out, and has lanes, as its options tell.
#[test]
fn options_lay_out(rt: HostRuntime) {
    for (lanes, two_hop, root, layout, count) in [
        (None, false, None, Layout::Method, 8),
        (Some(2), false, None, Layout::Method, 2),
        (None, true, None, Layout::TwoHop, 8),
        (None, false, Some(3), Layout::OneLane, 1),
        (Some(2), false, Some(3), Layout::OneLane, 2),
        (None, true, Some(3), Layout::TwoHop, 8),
    ] {
        let task = BuildTask {
            lanes,
            two_hop,
            root,
            ..plain()
        };
        assert_eq!(rt; task.layout(), layout);
        assert_eq!(rt; task.lane_count(), count);
    }
}

#[test]
fn other_words_name_none(rt: HostRuntime) {
    assert!(rt; Task::of_words(&[]).is_none());
    assert!(rt; Task::of_words(&["build"]).is_none());
    assert!(rt; Task::of_words(&["build", "a", "--lanes"]).is_none());
    assert!(rt; Task::of_words(&["build", "a", "--lanes", "x"]).is_none());
    assert!(rt; Task::of_words(&["build", "a", "--lanes", "256"]).is_none());
    assert!(rt; Task::of_words(&["build", "a", "--root"]).is_none());
    assert!(rt; Task::of_words(&["build", "a", "--root", "65536"]).is_none());
    assert!(rt; Task::of_words(&["build", "a", "b"]).is_none());
    assert!(rt; Task::of_words(&["check", "a"]).is_none());
    assert!(rt; Task::of_words(&["check", "a", "p", "--root"]).is_none());
    assert!(rt; Task::of_words(&["check", "a", "p", "--root", "x"]).is_none());
    assert!(rt; Task::of_words(&["check", "a", "p", "--depth", "3"]).is_none());
    assert!(rt; Task::of_words(&["dry", "a", "p", "--depth"]).is_none());
    assert!(rt; Task::of_words(&["dry", "a", "p", "--depth", "1", "--root"]).is_none());
    assert!(rt; Task::of_words(&["dry", "a", "p", "--root", "3", "--depth", "1"]).is_none());
    assert!(rt; Task::of_words(&["drain", "a", "p"]).is_none());
}
