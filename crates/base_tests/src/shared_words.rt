//! The words that threads share, by numbers that were worked out from their forms: a place and one
//! more, 1 + queue + 16 processor + 512 mark, and a count + 2^32 generation.
use run_words::{
    HintWord, ReceiveSetting, TransmitSetting, cpus_in, filter_in, filter_word, flows_in,
    flows_word, is_done, place_in, place_word, queues_in, socket_size_in, word_count,
};
use std::test::Fail;
use steer_base::{AppId, Cpu, CpuMask, Filter, PacketId, RxQueue, TxQueue};

// A filter as three numbers.
fn shown(filter: Option<Filter>) -> Option<(u8, u8, u32)> {
    match filter {
        Some(filter) => Some((filter.queue.0, filter.cpu.0, filter.mark)),
        None => None,
    }
}

#[test]
fn the_kinds_of_words_follow_one_another(rt: HostRuntime) {
    let first = [
        HintWord::Socket(0).number(),
        HintWord::Redirection(0).number(),
        HintWord::Stand(AppId(0)).number(),
        HintWord::Filter(0).number(),
        HintWord::Done.number(),
        HintWord::Queue(PacketId(0)).number(),
        HintWord::Steered(PacketId(0)).number(),
    ];
    assert!(rt; first == [0u32, 65_536, 65_664, 65_696, 69_792, 69_793, 69_794]);
    let last = [
        HintWord::Socket(65_535).number(),
        HintWord::Redirection(127).number(),
        HintWord::Stand(AppId(31)).number(),
        HintWord::Filter(4_095).number(),
        HintWord::Queue(PacketId(262_143)).number(),
        HintWord::Steered(PacketId(262_143)).number(),
    ];
    assert!(rt; last == [65_535u32, 65_663, 65_695, 69_791, 594_079, 594_080]);
    assert!(rt; word_count(262_144) == 594_081);
}

#[test]
fn the_settings_of_a_board_follow_one_another(rt: HostRuntime) {
    let receive = [
        ReceiveSetting::Cpus(RxQueue(0)).number(3),
        ReceiveSetting::Cpus(RxQueue(2)).number(3),
        ReceiveSetting::Flows(RxQueue(0)).number(3),
        ReceiveSetting::Flows(RxQueue(2)).number(3),
        ReceiveSetting::SocketSize.number(3),
        ReceiveSetting::Online.number(3),
    ];
    assert!(rt; receive == [0u32, 2, 3, 5, 6, 7]);
    let transmit = [
        TransmitSetting::Cpus(TxQueue(1)).number(2),
        TransmitSetting::Queues(TxQueue(0)).number(2),
        TransmitSetting::Queues(TxQueue(1)).number(2),
    ];
    assert!(rt; transmit == [1u32, 2, 3]);
}

#[test]
fn a_place_is_read_from_its_word_alone(rt: HostRuntime) {
    assert!(rt; place_word(0) == 1 && place_word(31) == 32);
    assert!(rt; place_in(0, 4) == None && place_in(5, 4) == None);
    assert!(rt; place_in(1, 4) == Some(0) && place_in(4, 4) == Some(3));
    assert!(rt; place_in(1 << 32, 4) == None);
    assert!(rt; is_done(1) && !is_done(0) && !is_done(2));
}

#[test]
fn a_filter_is_read_from_its_word_alone(rt: HostRuntime) {
    let filter = Filter {
        queue: RxQueue(3),
        cpu: Cpu(5),
        mark: 7,
    };
    assert!(rt; filter_word(filter) == 3_668);
    assert!(rt; shown(filter_in(3_668, 4, 6)) == Some((3, 5, 7)));
    assert!(rt; shown(filter_in(3_668, 3, 6)) == None);
    assert!(rt; shown(filter_in(3_668, 4, 5)) == None);
    assert!(rt; shown(filter_in(0, 16, 32)) == None);
    assert!(rt; shown(filter_in(1, 16, 32)) == Some((0, 0, 0)));
    assert!(rt; shown(filter_in(512 << 32, 16, 32)) == Some((15, 31, 4_294_967_295)));
    assert!(rt; shown(filter_in((512 << 32) + 1, 16, 32)) == None);
}

#[test]
fn sets_and_counts_out_of_range_read_as_nothing(rt: HostRuntime) {
    assert!(rt; cpus_in(0b101, 3) == CpuMask(0b101) && cpus_in(0b1000, 3) == CpuMask(0));
    assert!(rt; cpus_in(0xffff_ffff, 32) == CpuMask(0xffff_ffff));
    assert!(rt; cpus_in(1 << 32, 32) == CpuMask(0));
    assert!(rt; queues_in(0b11, 2) == 0b11 && queues_in(0b100, 2) == 0);
    assert!(rt; queues_in(0xffff, 16) == 0xffff && queues_in(0x1_0000, 16) == 0);
    assert!(rt; flows_word(256, 3) == 12_884_902_144 && flows_in(12_884_902_144) == 256);
    assert!(rt; flows_in(32_768) == 32_768 && flows_in(32_769) == 0);
    assert!(rt; socket_size_in(65_536) == 65_536 && socket_size_in(65_537) == 0);
}
