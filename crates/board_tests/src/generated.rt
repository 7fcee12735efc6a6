use board_gen::generate;
use std::test;

/// The smallest generated board, byte for byte.
const ONE_NET: &str = "board 1 gen1 20000 300
layer top
layer bot
class sig
rule top sig 10 10
rule bot sig 10 10
viakind v top bot 50
pad v sig 15
block top 9001 160 9201 180
net n1 sig
pin n1 100 100 140 140 top top
pin n1 19860 100 19900 140 top top
end
all
rules
";

#[test]
fn one_net_is_written_byte_for_byte(rt: HostRuntime) -> Result<(), test::Fail> {
    let text = generate(rt.alloc(), 1)?;
    assert!(rt; text.as_slice() == ONE_NET.as_bytes());
    Ok(())
}
