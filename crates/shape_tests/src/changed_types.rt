//! Which types read all encodings of which others, in one line each.

use bincode::config;
use bincode_evolution::evolution::type_reads_all;
use std::alloc::Global;

/// What types read of others.
fn of_types(alloc: Global) -> [Option<bool>; 5] {
    let variable = config::standard();
    let fixed = config::legacy();
    [
        type_reads_all::<u64, u16, _>(alloc, variable),
        type_reads_all::<u64, u16, _>(alloc, fixed),
        type_reads_all::<(u32, Option<String>), (u16, Option<String>), _>(alloc, variable),
        type_reads_all::<Vec<[u64; 2]>, Vec<(usize, u64)>, _>(alloc, fixed),
        type_reads_all::<String, Vec<u8>, _>(alloc, variable),
    ]
}

#[test]
fn tells_of_types(rt: HostRuntime) {
    let wanted = [Some(true), Some(false), Some(true), Some(true), Some(false)];
    let told = of_types(rt.alloc()) == wanted || of_types(rt.alloc()) == wanted;
    assert!(rt; told);
}
