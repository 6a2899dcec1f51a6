use hub_client::{AddressFault, HubAddress, Role};

fn is(text: &str, host: &str, port: u16) -> bool {
    match HubAddress::parse(text) {
        Ok(address) => address.host() == host && address.port() == port,
        Err(_) => false,
    }
}

#[test]
fn addresses_are_read(rt: HostRuntime) {
    let all = "127.0.0.1:4111 adc://127.0.0.1:4111 127.0.0.1:4111/ adc://127.0.0.1:4111/";
    for text in all.split(' ') {
        assert!(rt; is(text, "127.0.0.1", 4111), "{text}");
    }
    assert!(rt; is("hub.example:1", "hub.example", 1));
    assert!(rt; is("hub.example:65535", "hub.example", 65535));
}

#[test]
fn addresses_are_refused(rt: HostRuntime) {
    for (text, wanted) in [
        ("", AddressFault::NoPort),
        ("127.0.0.1", AddressFault::NoPort),
        ("adc://hub.example/", AddressFault::NoPort),
        ("hub.example:", AddressFault::NoPort),
        ("hub.example:0", AddressFault::Port),
        ("hub.example:65536", AddressFault::Port),
        ("hub.example:http", AddressFault::Port),
        ("hub.example:4111//", AddressFault::Port),
        ("hub.example:4111/path", AddressFault::Port),
        (":4111", AddressFault::NoHost),
        ("adc://:4111", AddressFault::NoHost),
        ("adcs://hub.example:4111", AddressFault::Tls),
        ("adcs://hub.example", AddressFault::Tls),
        ("[::1]:4111", AddressFault::Ipv6),
        ("::1", AddressFault::Ipv6),
        ("adc://[2001:db8::1]:4111/", AddressFault::Ipv6),
    ] {
        assert_eq!(rt; HubAddress::parse(text).err(), Some(wanted), "{text}");
    }
}

#[test]
fn roles_have_names(rt: HostRuntime) {
    for (bits, wanted) in [
        (0, "user"),
        (1, "bot"),
        (2, "registered"),
        (4, "operator"),
        (5, "operator"),
        (12, "superuser"),
        (16, "owner"),
        (33, "hub"),
        (64, "user"),
    ] {
        assert_eq!(rt; Role::of(bits).name(), wanted, "{bits}");
    }
}
