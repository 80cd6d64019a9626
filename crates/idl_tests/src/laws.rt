// The laws on definitions may be called, and do nothing.
use idl_fronts::fronts_go_on;
use idl_types::one_type;

#[test]
fn laws_may_be_called(_rt: HostRuntime) {
    fronts_go_on();
    one_type();
}
