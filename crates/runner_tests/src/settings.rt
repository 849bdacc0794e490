//! Which options are taken.

use runner::Options;

/// Workers, tries, a checkpoint and a seed.
type Asked = (u32, u32, u32, Option<u64>);

const TAKEN: &[Asked] = &[
    (1, 8, 2, None),
    (16, 64, 65536, None),
    (1, 8, 2, Some(0)),
    (1, 8, 2, Some(u64::MAX)),
];

const REFUSED: &[Asked] = &[
    (0, 8, 0, None),
    (17, 8, 0, None),
    (1, 0, 0, None),
    (1, 65, 0, None),
    (1, 8, 65537, None),
    (2, 8, 2, Some(0)),
    (16, 8, 2, Some(0)),
];

/// What the options tell, `None` where they are refused.
fn taken(asked: Asked) -> Option<Asked> {
    let (workers, tries, checkpoint, seed) = asked;
    let alone = Options::new(workers, tries, checkpoint)?;
    let options = match seed {
        Some(seed) => alone.with_seed(seed)?,
        None => alone,
    };
    options.law();
    Some((
        options.workers(),
        options.tries(),
        options.checkpoint(),
        options.seed(),
    ))
}

#[test]
fn options_have_limits(rt: HostRuntime) {
    for asked in TAKEN {
        assert!(rt; taken(*asked) == Some(*asked));
    }
    for asked in REFUSED {
        assert!(rt; taken(*asked).is_none());
    }
}
