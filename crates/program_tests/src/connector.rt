//! A board of four layers, two classes and twelve nets, between a connector and a chip.

pub const CONNECTOR: &str = "# connector J1 to chip U3, four layers
board 1 J1-U3 30000 12500

layer top
layer in1
layer in2
layer bot
class sig
class pwr
# layer class half gap
rule top sig 75 150
rule in1 sig 75 150
rule in2 sig 75 150
rule bot sig 75 150
rule top pwr 250 200
rule in1 pwr 250 200
rule in2 pwr 250 200
rule bot pwr 250 200
viakind v12 top in1 2000
viakind v23 in1 in2 2000
viakind v34 in2 bot 2000
pad v12 sig 300
pad v23 sig 300
pad v34 sig 300
pad v12 pwr 300
pad v23 pwr 300
pad v34 pwr 300
# mounting holes
block top 500 500 1700 1700
block in1 500 500 1700 1700
block in2 500 500 1700 1700
block bot 500 500 1700 1700
block top 28300 10800 29500 12000
block in1 28300 10800 29500 12000
block in2 28300 10800 29500 12000
block bot 28300 10800 29500 12000
net GND pwr
net D0 sig
net D1 sig
net D2 sig
net D3 sig
net D4 sig
net D5 sig
net D6 sig
net D7 sig
net D8 sig
net D9 sig
net VCC pwr
# connector, pads of 300 at a pitch of 650
pin GND  4850 2500  5150 2800  top top
pin D0   4850 3150  5150 3450  top top
pin D1   4850 3800  5150 4100  top top
pin D2   4850 4450  5150 4750  top top
pin D3   4850 5100  5150 5400  top top
pin D4   4850 5750  5150 6050  top top
pin D5   4850 6400  5150 6700  top top
pin D6   4850 7050  5150 7350  top top
pin D7   4850 7700  5150 8000  top top
pin D8   4850 8350  5150 8650  top top
pin D9   4850 9000  5150 9300  top top
pin VCC  4850 9650  5150 9950  top top
# chip
pin GND 24850 2500 25150 2800  top top
pin D0  24850 3150 25150 3450  top top
pin D1  24850 3800 25150 4100  top top
pin D2  24850 4450 25150 4750  top top
pin D3  24850 5100 25150 5400  top top
pin D4  24850 5750 25150 6050  bot bot
pin D5  24850 6400 25150 6700  top top
pin D6  24850 7050 25150 7350  top top
pin D7  24850 7700 25150 8000  top top
pin D8  24850 8350 25150 8650  top top
pin D9  24850 9000 25150 9300  top top
pin VCC 24850 9650 25150 9950  top top
end
route D4
all
rules
";
