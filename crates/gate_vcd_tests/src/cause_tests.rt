use only_nets::OnlyCause;

#[test]
fn causes_by_name_and_number(rt: HostRuntime) {
    assert!(rt;
        OnlyCause::UnknownNet.name() == "UnknownNet" && OnlyCause::UnknownNet.number() == 1
    );
    assert!(rt;
        OnlyCause::NamedTwice.name() == "NamedTwice" && OnlyCause::NamedTwice.number() == 2
    );
    assert!(rt; OnlyCause::Memory.name() == "Memory" && OnlyCause::Memory.number() == 3);
}
