//! Drawn scripts that end at a fault, or are refused. What they write is taken from a second reading of the language.
use crate::drawn::first_otherwise;
use pooma_top::Status;

// Scripts that end at a fault, behind what was printed.
const FAULTED: &str =
    "layout F (-1:1,-1:1) cuts ((0,1),()) external (1,0);field t on F faces constant 100, antireflect, extrapolate, reflect;
t = 4 * index(0) + 10 * index(1) - 2;layout G (0:2,-1:1,-1:0) cuts ((2),(),(0)) internal (2,2,1) external (2,1,2);
stencil toolon lower (0,0) upper (0,0) = where(@(0,0) < @(0,0), @(0,0), abs(@(0,0)));repeat 2;
t[0:0,-1:0] += toolon(t[2:1:-2,0:1]);scalar z = sum(max(t, 9223372036854775806));end;print z;
> fault line 8 at sum: overflow;

layout\tU (-2:-1) cuts ((-1)) internal (1) external (1)\r;stencil A lower (1) upper (0) = @(0);brick T (0:1);array H on U;
T *= 9223372036854775806;T= ((4294967296) <= (1)) | ((T[0:1]) % (T));brick V (-2:1);H[-1:-1] = index(0);
field S on U faces periodic, antireflect;S = H;V += 1;S -= (V[0:-2:-2]) % (A(V[-1:1])) / -(S[-2:-1]);print T[0:1];
print H[-3:0];print V[-2:1];print S[-3:0];
> fault line 6 at (0): zero divisor;

brick I (0:2);I = 3 * index(0) - 3;layout F (-2:0,-2:-1) blocks (2,2) external (2,0);brick G (-1:1,0:2,0:3);
scalar x = I[0] % G[1,0,2];layout s (-1:1) blocks (2);repeat 2;repeat 2;
I[2] -= min(I[2], max(-(G[0,2,0]), where(4611686018427387904, 2, I[2])));print x;I[1] = G[0,1,3];end;end;
print G[-1:1,0:2,0:3];
> fault line 5 at (): zero divisor;

stencil L lower (1,0,1) upper (1,1,1) = @(1,1,0);layout E (-1:0,-1:2) cuts ((),()) internal (1,0) external (2,0);array S on E;
layout T (1:2,-1:-1,-2:-2) blocks (2,1,1) internal (2,0,0) external (1,1,1);
scalar x = any((abs((10) + (S[-1:0:1,-1:2:1]))) > (((S[-3:-2:1,2:-1:-1]) != (7)) & (S[-1:1:2,-1:2])));print S[-2,1:2];
array K on E;S[0,-1] = K[0,1] & min(K[-1,0], 10);S = x % K;print S[-3:2,-1:2];print x;
> 0 0;fault line 9 at (0,0): zero divisor;

layout T (-1:0) blocks (1);stencil  s lower (0) upper (1) = @(1);field D on T faces reflect, constant 0;D = 1 * index(0) - 1;
D[0:0:-1] += 2 * s(D[-1:0]);scalar z = max(-(abs(D[0]) != 0 * D[0]));scalar z = sum(max(D, 9223372036854775806));block;
repeat 2;print D[-1:-1:1];end;print D[-1:0];print z;
> fault line 7 at sum: overflow;

layout B (1:3,1:3,-2:1) blocks (1,2,3) internal (1,2,1);brick J (1:3,-2:1);layout s (-2:-1,-1:1) blocks (2,3);
field H on B faces constant -3, constant -10, extrapolate, reflect, reflect, antireflect;
scalar t = all(where(H[3,2,-2:-1:2], J[1:1:3,0] - H[2:2:-2,1,1], (H[2,2:2,-1]) % (H[2,1:1,-2])) - (J[1,0:0]) < (1) - -(1));
J += 1;scalar z = all((where(t, H[1,1,-1], J[3,-1])) == (J[2,1]));scalar x = min(5);scalar y = sum(J[2:1:-1,1]);
H[1:3,3:2:-2,-1:0] += H[1:3:1,1:2:2,-2:1:3];print t;print z;print x;print y;
> fault line 5 at (0): zero divisor;

brick  C (1:3) # c;C = 4 * index(0) - 5;layout Y (2:4) blocks (3) internal (1) external (0);
stencil F lower (0) upper (0) = (@(0)) & (@(0)) + (@(0)) > (4611686018427387904);field s on Y faces extrapolate, periodic;
s = 4 * index(0) - 4;s[4] = (3) <= (C[2]);
C -= where(((F(s)) != (F(s[2:4:1]))) + (-(4611686018427387904)), 9223372036854775807, (-(F(C))) / (abs(F(s[2:4:1]))));
repeat 3;s[2] = 9223372036854775806 + s[2];end;print C[1:3];print s[2:4];
> fault line 8 at (0): overflow;

brick I (0:2);I = 3 * index(0) - 0;layout B (-2:0,-2:-1) blocks (2,2) internal (0,2) external (2,2);
field F on B faces extrapolate, reflect, antireflect, constant 241650949527;I[2] *= 5;repeat 2;
scalar x = bitand((((5) / (0)) < (1)) == (F % F[-2:-4:-1,-2:-1] / (5) > (F)));end;brick toolon (1:3,1:2);
toolon = 3 * index(0) + 4 * index(1) - 3;repeat 3;end;print I[0:2];print F[-4:2,-4:1];print x;print toolon[1:3,1:2];
> fault line 7 at (0,0): zero divisor;

brick K (1:4,-1:2);K = 10 * index(0) + 3 * index(1) - 2;
stencil Y lower (0,1) upper (0,1) = where(@(0,1) < @(0,1), @(0,-1), abs(@(0,1)));
K[1:2:1,2:2:1] -= Y(K[3:2:-1,2:0:-1]) + index(0);scalar t = all(5);K = (index(1)) | (9223372036854775806);repeat 2;repeat 2;
scalar t = sum(Y(K[1:4,1:-1:-1]) + index(0));end;end;print K[1:4,-1:2];
> fault line 9 at (2,0): overflow;

brick I (-1:1,-1:2,-1:1);I = 4 * index(0) + 10 * index(1) + 1 * index(2) - 0;
stencil  G lower (0,0,0) upper (0,1,1) = -((-(@(0,1,1))) % ((9223372036854775807) % (9223372036854775807)));
layout V (1:3,0:2) blocks (1,3) internal (1,1) external (2,0);
scalar s = min(where(G(I[-1:1,0:-1:-1,-1:2:2]) > 0, I[-1:1,0:2:3,-1:1:3], 1));I[-1,2,-1] = I[-1,1,-1];repeat 2;block;
I[-1:0:2,1:1:2,0:1] += where(G(I[-1:-1:-2,-1:1:2,-1:1]) > 0, I[-1:0:2,1:1:2,0:1], 1);end;print I[-1:1,-1:2,-1:1];print s;
> fault line 5 at (0,0,0): zero divisor;

layout M (-1:3,0:3,-3:1) cuts ((),(1,3),()) internal (1,0,2) external (1,1,0);brick U (-2:0,-1:2);
U = (10 * index(0) + 3 * index(1)) * index(1) - 0;
field L on M faces periodic, constant 0, extrapolate, reflect, extrapolate, periodic;
L = 3 * index(0) + 3 * index(1) + 2 * index(2) - 5;scalar x = max(abs(9223372036854775807 + 4611686018427387904));repeat 2;
U[0,0:0]\t= U[0,2:1:-2];end;repeat 2;U[-2:-2,1:2] = U[-1:-1:1,2:1:-1] + -(10);end;print L[-2:4,-1:4,-3:1];
> fault line 6 at (): overflow;

layout\tB (0:1,1:3) cuts ((1),())\r;array W on B;field D on B faces constant -4294967296, antireflect, periodic, constant -2;
D = 4 * index(0) + 1 * index(1) - 5;stencil S lower (0,1) upper (0,0) = 10;W[0:0,3:2:-1] = S(D[1:1:1,3:1:-1]);
D[1:1:1,3:3:2] = ((S(W[1:1,1:2])) == (2)) + ((5) / (index(1)));W[0:1,2:1:-1] = where(S(W) > 0, W[0:1,2:1:-1], 1);repeat 3;
W[0:1,3:3] = 4611686018427387904;end;print W[0:1,1:3];
> fault line 7 at (0,0): zero divisor;

brick F (0:1);F = 3 * index(0) - 2;brick J (1:3,-2:0,-2:1);J = 1 * index(0) + 1 * index(1) + 2 * index(2) - 4;print F;
stencil H lower (0) upper (0) = where(max(@(0), @(0)), (3) >= (@(0)), -(@(0)));J = J[1:3,-2:0:1,-2:1] + J;
scalar z = sum(max(F, 9223372036854775806));scalar t = count(H(F[0:1]));
scalar z = (min(J[3,-1,-1], F[0])) + ((J[2,0,1]) % (0));print J[1:3,-2:0,-2:1];print z;print t;
> -2 1;fault line 8 at sum: overflow;

layout toolon (2:5) blocks (2) internal (2);layout A (-3:-1) blocks (3) external (1);brick G (2:5);brick K (2:4);
stencil W lower (1) upper (1) = min(5, 300011303781) < where(@(0), @(-1), @(-1));G = 3;
field  T on A faces reflect, extrapolate\r;scalar s = sum((abs((G[3]) * (K[3]))) + (((K[2]) / (K[3])) + (K[2])));
K = (s % G[4:2:-1]) == ((W(T[0:-4:-1])) + (G[4:2:-1]));print G[2:5];print K[2:4];print T[-4:0];print s;
> fault line 8 at (): zero divisor;

stencil J lower (0) upper (1) = max(@(1), @(0));brick A (-2:0,1:3);A = 1 * index(0) + 10 * index(1) - 4;
stencil K lower (0,0,0) upper (0,1,1) = ((3) != (@(0,1,1))) | ((2) | (@(0,0,0)));block;scalar z = bitor(A[-1:0,1:3]);repeat 2;
scalar C = all((max(A[-2,3:1:-2], z)) != (where(J(A[-2,1:3]), z, 100)) % ((7) == (A[-2,2:3])) - (abs(z)));end;
print A[-2:0,1:3];print z;print C;
> fault line 8 at (0): zero divisor;

layout J (0:1) cuts (()) internal (1);field Y on J faces extrapolate, antireflect;Y = (10 * index(0)) * index(0) - 4;
brick B (-2:0,-1:1);B = (1 * index(0) + 4 * index(1)) * index(1) - 3;repeat 2;print Y;
B[0:0:1,-1:1:3] *= ((max(index(1), 9223372036854775807)) - (7 + B[-1:-1:-1,0:0:-1])) + (max((B[0:0,1:1:1]) + (index(0)), 4611686018427387904 >= B[0:1:2,1:1:-1]));
print Y;end;print Y[0:1];
> -4 6;fault line 8 at (0,0): overflow;

layout Y (-3:2,0:2) blocks (2,2) internal (0,0) external (2,1);
field D on Y faces reflect, periodic, constant -3, constant -100;array F on Y;F = 4 * index(0) + 3 * index(1) - 4;
F[-2:1,0:0:1] = (F[-3:0,2:2:-1]) / (F[4:1:-1,0:2:3]);repeat 2;F[-3:0:1,2] += D[1:-6:-2,0] + 446933722492 % F[-1:2,1];
scalar x = (F[0,-1]) > (0);repeat 2;
scalar y = any((((3) != (D[-1:-1:1,-1:-1:-1])) & (min(index(1), F[-5:-4:2,2:2:-1]))) <= (1 != min(2, 5)));end;end;
print D[-5:4,-1:3];print F[-5:4,-1:3];
> fault line 5 at (0,0): zero divisor;

layout U (0:2,-2:0,-3:1) blocks (2,1,1);
field t on U faces antireflect, reflect, reflect, constant 282404962139, antireflect, reflect;
t = 2 * index(0) + 2 * index(1) + 2 * index(2) - 5;brick K (-1:1);K = 4 * index(0) - 5;repeat 2;
t[2:2,-1:-2:-1,-2:0] *= (4294967296) + (t[0:0:-2,-1:0,-1:1]);K[-1:0:1] = 2;
t[2,0,-3] += (0) <= (((10) + (K[0])) | (t[0,0,0] * K[-1]));
K[1:1] = 9223372036854775807 | abs(2) % (9223372036854775806) + (t[2:2,-2,-3]);end;print t[0:2,-2:0,-3:1];
> fault line 7 at (0,0,0): overflow;

layout K (-1:1) blocks (3) external (0);
stencil C lower (0) upper (1) = ((max(@(1), 9223372036854775806)) + (abs(9223372036854775806))) > (abs(1));array D on K;
D = 1 * index(0) - 5;block;scalar z = bitand(C(D[0:-1:-1]));repeat 2;
D[0] += ((9223372036854775807 != D[-1]) - (5)) < (-((D[1]) / (D[0])));D[-1] = (-(1 > D[-1])) / (max(-(D[1]), max(0, D[0])));
D[-1:1] -= max(D[-1:1:1], 0) + D % 0;scalar z = sum(max(D, 9223372036854775806));end;print D[-1:1];print z;
> fault line 6 at (0): overflow;

stencil A lower (1,0) upper (0,1) = min((1) / (@(-1,0)), -(679832307328));brick H (0:2,-2:0);
layout J (1:4,1:2,0:1) blocks (2,1,2) internal (0,0,1) external (2,0,0);H[0:0,-2:-1:2] += max(A(H[1:2,-1:0]), 3);
stencil U lower (0,0) upper (0,0) = max(@(0,0), @(0,0)) - min(@(0,0), @(0,0));H[0:1,0:0:2] = 2 * A(H[0:2,-1:-2:-1]);print H;
repeat 3;H[0:0:-1,-1:-1] -= 2 * U(H[2:1:-2,-2:-2:2]);end;print H[0:2,-2:0];
> fault line 4 at (0,0): zero divisor;

layout H (1:3,-1:2,-1:2) cuts ((),(2),(1));stencil S lower (0,0,0) upper (0,0,0) = @(0,0,0) + @(0,0,0) - 2 * @(0,0,0);
layout K (-1:1,0:2) cuts ((),(1)) internal (2,1) external (1,2);array t on H;
t[2:3,0:1,0:0:1] = 2 * S(t[3:0:-2,0:-1:-1,-1:-1:-1]);scalar s = abs((-(t[3,-1,2])) & (t[2,0,1]));
scalar s = any((t[2,2:0:-1,1:-1:-1]) / (abs(where(t[3,0:2,-1:1], t[1:3,-1,-1:1], s))));
t[2:3:2,1:2,2:2:-1]\t= S(t[2:3:3,-1:0:1,0:0])\r;print t[1:3,-1:2,-1:2];print s;
> fault line 7 at (0,0): zero divisor;

brick t (1:3,1:3);t = 2 * index(0) + 10 * index(1) - 3;stencil D lower (1,1) upper (0,0) = 0;brick toolon (-1:0,0:2,0:1);
toolon[-1:0:1,1,0:1] += max((D(t[1:3:1,1:3])) - (toolon[0:-1:-1,0,0:1:1]), t[2:1:-1,3:1:-2] != 7) + index(1);
scalar s = count(toolon[-1:0,2,1]);t = index(1);scalar z = sum(max(toolon, 9223372036854775806));repeat 2;t *= 10 | index(1);
end;print t[1:3,1:3];print s;
> fault line 8 at sum: overflow;

stencil Z lower (1,1) upper (1,1) = @(0,1) + @(-1,0) - 2 * @(0,-1);layout A (-2:1) cuts ((0,1));
field I on A faces antireflect, reflect;field E on A faces periodic, constant -100;E\t= 2 * index(0) - 2;repeat 3;
E -= index(0);E[0] *= (9223372036854775807) - (1 % I[-2]);end;print E[-2:1];
> fault line 8 at (): zero divisor;

stencil M lower (1,1) upper (1,0) = @(0,0);layout W (0:3,-1:0) cuts ((2),(0)) internal (0,2) external (1,2);array E on W;
brick A (1:2,-1:2);A = 2 * index(0) + 3 * index(1) - 0;A *= 4611686018427387904;A[2:2,2:-1:-2] = 1;repeat 2;
scalar s = all(M(E[0:3,-1:0]));end;print E[-1:4,-3:2];print A[1:2,-1:2];print s;
> fault line 6 at (1,0): overflow;

stencil toolong lower (0,1) upper (1,0) = where(@(0,0) < @(1,0), @(1,0), abs(@(0,0)));
layout J (0:3,-1:1) blocks (1,1) internal (2,1) external (1,0);array S on J;S = 2 * index(0) + 10 * index(1) - 2;
S[1,0] = S[1,-1];S[3:3:-1,0:1:2] *= -(S[2:2:1,0:0:-1]);print S[1,-1:-1];
scalar x = max(where(toolong(S[3:2:-1,0:-1:-1]) > 0, S[0:0,0:1:3], 1));scalar s = (S[2,1] >= 5) / ((S[1,-1]) & (S[4,1]));
S[0:4:1,-1:0:3] *= S[3:-1:-1,0:0:1];S[1:1:-1,-1:1:2] = toolong(S[3:1:-2,-1:1]);print S[-1:4,-1:1];print x;
> 0;fault line 9 at (): zero divisor;

layout t (-3:-2,2:4,-2:1) blocks (2,2,1) external (0,2,2);brick K (2:5,2:6);K = 10 * index(0) + 3 * index(1) - 4;
field E on t faces extrapolate, extrapolate, periodic, reflect, constant -9223372036854775806, constant 9223372036854775806;
E = (2 * index(0) + 1 * index(1) + 2 * index(2)) * index(1) - 3;block;E = -(5);repeat 2;
scalar s = bitor(-(-((E[-3,2:5,-2:2]) % (index(0)))));end;print E[-3:-2,0:6,-4:3];print s;
> fault line 9 at (0,0): zero divisor;

stencil S lower (0) upper (1) = @(1) % @(1);brick Y (-3:0,-1:2);
layout\tT (1:2,0:3) cuts ((2),()) internal (2,1) external (0,1);layout A (-2:0) blocks (2) external (1);brick M (-2:1,-1:0);
Y  = (159961411342) + (10)\r;M = max(index(0), (0) * (Y[0:-3:-1,0:-1:-1]));brick s (-3:-1,0:3);M[-2:-1,-1:0:1] += 7;
M[0:0:3,-1] *= where(-(Y[-1:-1:-2,0]), abs(S(s[-3,2:-1:-2])), index(0) & 4294967296);
field H on T faces antireflect, reflect, periodic, constant 46614758268;print s[-3:-1,0:3];print H[1:2,-1:4];
> fault line 10 at (0): zero divisor;

brick toolon (1:3,0:2);toolon = 10 * index(0) + 1 * index(1) - 0;stencil U lower (1) upper (0) = @(-1);
layout T (0:1,-1:2,0:3) blocks (1,3,2) internal (1,0,0) external (0,1,0);array V on T;scalar x = any(1);brick I (-1:0,-1:0);
I\t= 3 * index(0) + 10 * index(1) - 4 # c;
I[-1:0:1,-1] = (toolon[1,0:1:1]) - (V[0,-1:0,2]) - (I[-1:0,-1]) / (V[0,1:2,3]) == ((V[0,-1:2:3,1]) + (U(V[1,-1,2:0:-1]))) + ((V[1:0:-1,1,2]) <= (index(0)));
repeat 2;V[1:0:-1,-1,1] *= min(I[0:-1:-1,-1], -(toolon[3:0:-2,1]));end;print toolon[1:3,0:2];print I[-1:0,-1:0];
> fault line 9 at (0): zero divisor;

brick\tH (-1:2,-1:1,1:3);H = 10 * index(0) + 4 * index(1) + 2 * index(2) - 3;brick S (0:2);
stencil L lower (0,1,0) upper (1,1,0) = @(1,1,0) + @(1,0,0) - 2 * @(1,0,0);scalar t = (7) % (100);S = 709634106787;
H[-1:1:3,-1:-1,3:1:-2] = max(L(H[1:0:-1,-1:1:1,3:2:-1]), 3);S[0] *= S[1];print H[-1:2,-1:1,1:3];print S[0:2];print t;
> fault line 8 at (): overflow;

layout L (-2:-1,0:2) cuts ((-1),(1));layout C (-1:0,-1:1) cuts ((0),()) internal (2,1) external (2,1);
field V on L faces extrapolate, constant -9223372036854775807, antireflect, constant -4611686018427387904;
V  = (10 * index(0) + 1 * index(1)) * index(0) - 3;
stencil D lower (0,1) upper (0,0) = where(@(0,-1) < @(0,0), @(0,-1), abs(@(0,0)));V += 9223372036854775806 - V[-2:-1,0:2];
V[-1:-1:1,1:2:2] = D(V[-2:-3:-2,0:3:2]);
> fault line 6 at (0,0): overflow;

brick V (-2:1,1:4);V = 4 * index(0) + 4 * index(1) - 1;brick K (1:4,-1:1,1:3);
K = 4 * index(0) + 2 * index(1) + 2 * index(2) - 2;
scalar x = bitand(-(-(K[4:1:-1,-1:1,1:3])) != ((K) < (7)) / (index(1) % 776986677774));repeat 3;V = -(9223372036854775806);
repeat 2;print V[-2,2];end;print K;end;print V[-2:1,1:4];print K[1:4,-1:1,1:3];
> fault line 5 at (0,0,0): zero divisor;

brick S (-1:2);S  = 3 * index(0) - 4\r;layout E (-1:0) cuts (()) internal (1) external (2);
stencil W lower (0,0) upper (1,1) = @(1,0);field D on E faces constant 0, reflect;D = 10 * index(0) - 2;repeat 3;
S -= 9223372036854775807;S = 660021878277;D -= D[-3:-2:1];S = where(D[-1:2], D[-1:2], 0);end;print S[-1:2];
> fault line 8 at (0): overflow;

layout B (-1:2,-2:-1) blocks (3,2) internal (1,0) external (2,0);stencil C lower (0) upper (0) = @(0);brick E (0:3,0:2);
E = 1 * index(0) + 4 * index(1) - 4;print  E\r;
E[2,0:1:2]  = -((where(C(E[2,0:0:-1]), 0, index(0))) + ((index(0)) - (9223372036854775806))) # c;repeat 2;
E -= 4611686018427387904;E[0,1:2] = C(E[1,0:2:2]);end;print E[0:3,0:2];
> -4 -3 -2 -1;0 1 2 3;4 5 6 7;fault line 8 at (0,0): overflow;

layout S (-2:0,-1:1) blocks (1,1) internal (2,0);brick D (0:1);D = 10 * index(0) - 3;stencil B lower (0) upper (0) = @(0);
scalar t = min(B(D[1:2:3]));scalar s = any(-(abs(B(D))) % 0 - t >= 5);D[1:1] = max(B(D[1:1]), 3);D[1] *= D[1] - D[0];
field toolon on S faces periodic, constant 3, antireflect, constant -1;toolon = 2 * index(0) + 4 * index(1) - 2;
D *= ((D[0:1]) % (index(0))) >= (abs(t));print D[0:1];
> fault line 6 at (0): zero divisor;

layout K (0:2,1:2,-2:0) blocks (1,1,2) internal (0,1,2) external (0,2,2);brick F (1:3,1:2);
field X on K faces periodic, reflect, constant 644848730864, constant 100, antireflect, antireflect;brick T (-1:1,0:2,-2:0);
T = 2 * index(0) + 3 * index(1) + 1 * index(2) - 0;repeat 2;X[0:1,1:2:1,-1:0:1] += X[2:0:-2,-1:4:3,-2:-3:-1];
scalar z = sum(max(T, 9223372036854775806));X -= T[1:-1:-1,0:1,-2:0];end;scalar z = sum(max(T, 9223372036854775806));
print F[1:3,1:2];print X[0:2,-1:4,-4:2];print T[-1:1,0:2,-2:0];
> fault line 8 at sum: overflow;

brick K (-2:-1);K = (10 * index(0)) * index(0) - 1;
stencil Y lower (1,0) upper (0,1) = where(@(0,1) < @(-1,0), @(0,1), abs(@(-1,1)));brick E (1:4,0:2);
K[-1:-2:-2] += (K[-2:-2:1]) % (index(0));E[3:4:3,0:1] -= Y(E[2:1:-1,0:2]);print K[-2:-1];
> fault line 5 at (0): zero divisor;

brick W (1:3,1:3);W = (10 * index(0) + 4 * index(1)) * index(1) - 1;
stencil I lower (0,0) upper (0,1) = (@(0,0)) - (0) + @(0,0) < 4611686018427387904;brick T (-1:2,1:2);
T = 10 * index(0) + 1 * index(1) - 2;repeat 2;T *= (max(index(0), 9223372036854775807)) + (T);T[-1:1,2:2] -= I(T[-1:1,1:2]);
end;print W[1:3,1:3];print T[-1:2,1:2];
> fault line 7 at (0,0): overflow;

brick toolon (0:3);toolon = (2 * index(0)) * index(0) - 2;brick A (1:3,-2:-1);A = 3 * index(0) + 3 * index(1) - 5;repeat 2;
print A;repeat 1;toolon[2:1:-2] *= A[1,-2:-2:-1] < A[1,-2:-2:-1];
scalar t = max((-(5 | 4294967296)) % ((min(A[1,-2:-1], index(0))) != (A[2,-1:-2:-1])));end;end;print A[1:3,-2:-1];print t;
> -5 -2 1;-2 1 4;fault line 9 at (1): zero divisor;

layout D (-3:-3) blocks (1) internal (1);field J on D faces reflect, constant 868330789720;brick C (-1:0);
stencil W lower (0) upper (1) = @(1);J *= ((10) / (C[0:0:1])) | (W(C[0:-1:-1]));field  M on D faces extrapolate, constant -7;
array U on D;J = M;print J[-3:-3];print C[-1:0];print M[-3:-3];
> fault line 5 at (0): zero divisor;

stencil toolon lower (0,0) upper (1,0) = min((@(0,0) - 1) == ((5) % (@(1,0))), -(@(0,0)));
stencil s lower (0,1,0) upper (0,0,1) = @(0,0,0);brick U (-2:-1,-2:1);scalar z = all(toolon(U[-2:-1,1:-1:-1]));brick L (0:2);
L = (10 * index(0)) * index(0) - 4;L[0] = (L[1]) & (1);scalar t = max(toolon(U[-2:-1,-1:1]));
U[-2:-1:3,-1] += min(L[0:0:-1], 7);print t;
> fault line 4 at (0,0): zero divisor;

stencil S lower (0) upper (1) = 2;brick Y (-2:-1);Y[-2:-2:1] += S(Y[-2:-1]);layout L (-1:1,1:4) blocks (1,2);Y[-2] -= Y[-1];
repeat 2;end;repeat 3;Y *= 9223372036854775807 + ((Y[-2:-1:1]) % (4294967296)) * ((index(0)) % (Y[-2:-1]));
Y[-1] = (Y[-2]) <= (Y[-1]);scalar x = sum(S(Y[-2:-1:1]) + index(0));end;print x;
> fault line 9 at (0): overflow;

brick L (-1:0,1:2);L = (3 * index(0) + 1 * index(1)) * index(1) - 3;
stencil  D lower (1,0) upper (0,1) = (@(-1,1) + @(0,0)) * ((@(0,0)) % (@(-1,1))) | (@(0,0)) <= (@(-1,1) % @(-1,0)) # c;
brick s (1:4,0:2,-1:2);s = 1 * index(0) + 3 * index(1) + 2 * index(2) - 4;L[0:0,2:2:1] += D(L);
scalar y = ((0) % (L[0,2]) | L[0,2]) % ((where(4611686018427387904, 3, 2)) == ((3) - (3)));repeat 2;end;print L[-1:0,1:2];
print s[1:4,0:2,-1:2];print y;
> fault line 7 at (): zero divisor;

brick T (0:3,-2:-1);T = 3 * index(0) + 3 * index(1) - 4;stencil X lower (0) upper (1) = @(1) <= (@(1)) - (@(0));
stencil Y lower (0,0) upper (1,0) = where(@(0,0) < @(0,0), @(1,0), abs(@(1,0)));T[3,-1:-2:-1] *= 4294967296;
T[1:1,-1:-2:-2] += Y(T[2:3,-1:-1:-1]);scalar y = T[2,-1];T[2:1:-2,-2:-2] += max(Y(T[2:3,-1:-2:-2]), 3);repeat 2;
T[1:2:1,-2:-1:3] = Y(T[3:1:-1,-1:-1:1]) + index(0);T[1,-2] *= 9223372036854775807;end;print T[0:3,-2:-1];print y;
> fault line 11 at (): overflow;

brick M (2:4,0:7,1:1);M = 4 * index(0) + 1 * index(1) + 2 * index(2) - 5;layout L (0:2,-1:2,-2:1) cuts ((2),(1,2),(-1,1));
brick U (-2:1,-2:2);U = 3 * index(0) + 3 * index(1) - 2;layout Y (2:5) cuts ((5)) external (2);
U -= abs(index(0)) & 0 + 0 >= (1 > 9223372036854775806) / ((7) < (2));
field A on L faces periodic, constant 4294967296, antireflect, periodic, constant 0, reflect;
A = (3 * index(0) + 2 * index(1) + 4 * index(2)) * index(2) - 0;repeat 3;end;print A[0:2,-1:2,-2:1];
> fault line 7 at (0,0): zero divisor;

layout D (0:4) blocks (3) external (0);field  U on D faces antireflect, constant 0;brick\ttoolong (2:6,2:6,-1:3)\r;
field M on D faces extrapolate, periodic;M[0:4] = (0) == (toolong[2,2:6,2]);block;array V on D;
scalar x = (where(946890696317, V[2], 9223372036854775807)) + (M[3] / V[1]);print U[0:4];print toolong[2:6,2:6,-1:3];
print M[0:4];print V[0:4];print x;
> fault line 8 at (): zero divisor;";

// Scripts that are refused.
const REFUSED: &str = "brick M (-2:0);layout U (0:32:2) cuts ((1,3),()) external (1,1);
field H on U faces antireflect, antireflect, antireflect, extrapolate;layout  L (2:4) blocks (3) internal (0) external (2)\r;
scalar t = all((1) % (H));print\tH[1,2] # c;M[-1] = abs(-((645560974060) | (M[-1])));
H[0,2]\t-= (abs(H[2,2])) + ((H[1,2]) >= (M[0])) # c;H[2,2] -= -((M[-1]) + (t)) == abs(184634932764 & M[-1]);print M[-2:0];
print H[-1:4,1:3];print t;
> refused line 2: syntax;

brick M (-1:2,0:1);M = 1 * index(0) + 2 * index(1) - 3;
stencil K lower (1,0) upper (1,1) = min(min(@(1,0) % 5, 10 % 1), (@(0,0)) - (10) + (@(1,1)) != (@(0,1)));
scalar y = sum(K(M[0:2:1,0:1:1]));layout E (-1:1,1:2,1:3) cuts ((1),(2),(2,3)) internal (0,0,2) external (0,0,0);
M[1,1] = M[2,1];scalar y = sum(where(K(M[2:0:-1,1:0:-1]) > 0, M[1:1:1,1:1:1], 1));scalar y = all(2 * K(M[2:0:-1,0:1]));
repeat 3;M[1,0:1] = y;M[1:2,1:1:3] += K(M);
> refused line 11: overlap;

layout C (1:5,-2:1) blocks (2,1) internal (1,2) external (0,2);brick Y (-1:0);
field B on C faces periodic, antireflect, antireflect, periodic;
layout E (-2:0,-2:0,0:0) blocks (1,1,1) internal (0,1,1) external (1,2,0);scalar x = min(9223372036854775807);
brick t (1:4,-1:2,-3:-1);layout K (-2:-1) blocks (1) external (1);
layout F (-3:-3,-1:2,-2:-2,1:1) cuts ((),(),(),()) internal (0,1,0,1) external (0,1,0,0);
> refused line 8: dimension;

stencil E lower (1,0) upper (0,0) = @(-1,0);layout C (0:3,-1:0,1:2) cuts ((1,2),(0),(2)) internal (0,1,2) external (2,1,1);
field\tB on C faces antireflect, reflect, extrapolate, constant -9223372036854775807, constant -4294967296, antireflect # c;
B = (3 * index(0) + 10 * index(1) + 3 * index(2)) * index(1) - 5;B[0,0:0,1:2] *= B[0:0:2,0,1:2];repeat 2;
B[3:3:1,0,1] = abs(1);end;B += (-(B[3:0:-1,0:-1:-1,2:1:-1])) < (min(B[5:2:-1,-1:0,1:2:1], 10));
> refused line 9: overlap;

brick U (0:1,0:1);layout\tM (-1:2,0:2) blocks (2,3) internal (2,0) # c;array toolon on M;
field Z on M faces extrapolate, periodic, extrapolate, reflect;scalar z = sum(5);block;
toolon += where(z9223372036854775807, (10) | (z), (Z[-1:2:1,0:2]) == (index(0)));brick L (-3:0);brick F (-2:0,1:3,-2:-1);
scalar s = any(toolon[2:2:-1,2] <= 300667921654);print U;print U[0:1,0:1];print L[-3:0];print F[-2:0,1:3,-2:-1];print s;
> refused line 7: name;

stencil G lower (0,0,0) upper (1,0,0) = where(@(1,0,0) < @(0,0,0), @(0,0,0), abs(@(1,0,0)));brick C (-2:0,-1:1,-1:0);
C = 1 * index(0) + 3 * index(1) + 10 * index(2) - 5;C[-2:-1:2,-1:-1,-1:0] += 2 * G(C[-1:0,-1:-1:-1,0:-1:-1]);C *= C;repeat 2;
C[-1:-2:-2,0:0:-2,0:0:-2] += G(C[-1:0,1:1,-1:0:3]);scalar y = bitand(-(max(C[-2:0,1:0:-2,0:0], 4611686018427387904)));
C = G(C[-2:1,1:-1:-1,-1:0]);
> refused line 9: outside;

brick S (-2:0);brick H (0:4,0:3,-1:2);layout B (-3:0) cuts (()) internal (0) external (0);brick I (2:6,0:3);brick C (2:5);
H[2:4,2:2:1,-1] *= where(-(7), (I[4:2:-1,0:0]) != (1), min(7, I[4:2:-1,0:0:-1]));
scalar y = count((I[5,0:0:1]) == ((index(0) < 2) + (1)));print H;scalar y = min((H[1,2,1]) * (H[2,0,-1]), -(C[3]));
fieldW on B faces extrapolate, periodic\r;
> refused line 10: syntax;

brick W (2:3);layout A (-1:2,-3:-3) blocks (1,1) internal (0,0) external (2,0);
layout X (-3:-1) blocks (1) internal (1) external (1);field C on X faces antireflect, reflect;C[-] = -(abs(W[2]));
print C[-4:0];scalar z = bitor(C[-2:-1] & C[-3:-2]);print W[2:3];print z;
> refused line 5: syntax;

stencil Y lower (1,1) upper (0,0) = max(@(-1,-1), @(0,-1)) - min(@(-1,-1), @(0,-1));
layout t (0:2,-1:0) blocks (2,2) external (0,0);array X on t;X = 4 * index(0) + 4 * index(1) - 2;
X[2:2,-1:-1] = where(Y(X[2:1:-1,-1:-1:3]) > 0, X[2:2,-1:-1], 1);
> refused line 5: empty;

layout E (2:6,-2:-1,2:2) blocks (2,1,1);
field L on E faces extrapolate, reflect, antireflect, constant -100, periodic, constant 1;
layout D (-2:1,-2:1) blocks (3,3) external (2,0);layout X (0:3,-3:0,1:5) blocks (3,1,1) external (2,2,0);
scalar z = count(7 % L[2:4:3,-1,2:2]);field S on D faces constant 691713642104, constant 1, extrapolate, extrapolate;repeat 1;
> refused line 8: open repeat;

layout V (1:3) blocks (1) external (2);stencil I lower (0,0,0) upper (1,1,0) = @(0,1,0);brick W (0:1,-2:-1);
field M on V faces constant -225357864338, antireflect;scalar z = max(-(7));W = -(W[0:1,-2:-1:1]);
stencilF lower (3) upper (1) = (where(@(-3), (@(1)) / (@(0)), @(1))) != (-((@(0)) == (@(-2))));
> refused line 7: syntax;

stencil C lower (0) upper (1) = @(1) & ((@(0)) < (@(1))) - (@(1) - @(0));brick F (-2:1,1:3);brick E (-3:0);
layout s (1:2) cuts ((2)) internal (0) external (1);E[-2:-1:1]\t= -(10);scalar t = (5) % (E[-3]);array  Z on s # c;print F;
Z[1] = t + F[1,3];stencil M lower (0,1,1) upper (1,1,1) = @(0,1,-1);
scalar t = all(((t) | (C(F[-1,2:3:1]))) < (where(C(Z[0:3:3]), Z[0:0:-2], index(0))));
layout\tA (1:3,-2:2,-1:0) cuts ((2),(),()) internal (1,1,1) # c;F[-2,3] = where(t, 1, 10);scalar t = 5;
brick I (1:3,1:2,2:2,1:1);
> refused line 15: dimension;

field\tF on D faces reflect, periodic;
> refused line 1: name;

stencil C lower (0,1) upper (0,1) = -(@(0,0));brick s (-1:1,-2:1);s = 2 * index(0) + 3 * index(1) - 0;
stencil t lower (1) upper (0) = @(-1);s[0:0,-1:0] += C(s[0:0:1,-2:1:1]);s[-1:0,0] -= -(s[-1:1:2,0]);repeat 2;print s;
s[1:1:-1,-1:0] = C(s[-1:-2:-2,-2:1]);scalar z = any(s[-1:1,-2:1:3] <= C(s[-1:1,1:-2:-1]));
s[-1:0,-2:1:1] -= C(s[0:1:1,-2:3]) + index(0);
> refused line 11: outside;

field t on T faces antireflect, constant 3;
> refused line 1: name;

stencil G lower (1,3,0) upper (0,0,1) = (@(0,-1,0)) + (@(0,0,1));brick t (1:2);t = 1 * index(0) - 2;
layout Y (0:3,-2:0) cuts ((3),(-1,0)) external (1,2);brick S (1:3,-2:0,0:3);S += 0;repeat 2;S[3,-2,0:0] = t[2:2];
S[1:3:3,0:0:-2,3:3]\t= G(S[2:1:-1,-2:1,1:0:-1])\r;
> refused line 9: outside;

layout  K (-1:1,-1:0,-2:-1) blocks (2,2,2) internal (2,1,1) external (1,2,2)\r;layout J (0:2,0:2) blocks (1,2) internal (2,1);
layout I (-1:2) blocks (2);stencil G lower (1,0,0) upper (1,0,0) = max(@(-1,0,0), @(1,0,0)) - min(@(0,0,0), @(1,0,0));block;
repeat 2;M = (where((100) + (3), 7 < T[0], (D) % (D))) + (100 > T[0] < U[0]);
> refused line 7: syntax;

brick C (-2:1,1:3);stencil s lower (1,1) upper (0,1) = -(@(-1,0));scalar z = bitor(max(s(C[0:-1:-1,3:3]), 3));
> refused line 3: empty;

layout D (1:3) blocks (1) internal (1) external (1);array toolong on D;field V on D faces periodic, constant -3;
layout M (-2:-1,1:4) blocks (1,2);layout C (1:3,-2:-1) blocks (3,1) external (0,1);
field S on C faces periodic, constant 438426057912, periodic, constant -1;S\t= 2 * index(0) + 2 * index(1) - 2 # c;
field E on C faces constant -1, periodic, reflect, constant -9223372036854775806;E = 4 * index(0) + 1 * index(1) - 1;
print E[1:1:1,-2:-1:1];E -= (((index(1)) + (index(0))) * (3 + S[1:3,0:-1:-1])) | (index(1) <= 2 == 2 | 10);
> refused line 11: syntax;

stencil S lower (1,1) upper (0,1) = abs(-((@(-1,-1)) != (@(-1,-1))));
stencil B lower (1,0) upper (0,1) = (@(0,1) + @(0,1)) / 2;stencil Z lower (0) upper (1) = max(@(1), abs(@(0) <= @(0)));
stencil F lower (1,1) upper (0,1) = (@(-1,1) + @(0,0)) / 2;block;scalar s = min(7);repeat 3;repeat 1;D[0] += index(0);
> refused line 9: name;

brick Z (2:5);stencil T lower (2) upper (1) = 7;brick E (2:6);layout K (1:3,1:4) cuts ((),(4)) internal (1,2) external (1,2);
brick A (0:4);Z[3] = -(4294967296);Z[5] = (E[6]) != (2);A[2:3] *= A[2:1:-1] + 1;print A;
layout I (-1:1,-3:0) blocks (1,3) internal (0,1) external (1,2);scalar y = max(A[2]);
E[2:3:3]\t= where(T(A[4:1:-1]), (y) == (index(0)), where(1, y, 4611686018427387904))\r;repeat 2;
> refused line 14: open repeat;

field Z on T faces reflect, extrapolate;
> refused line 1: name;

brick U (0:1,1:3);stencil Y lower (1,1) upper (1,1) = max(@(0,0), @(-1,0)) - min(@(-1,-1), @(-1,0));
stencil B lower (0,0) upper (0,0) = @(0,0);U[0:0:1,1:3] -= B(U[0:0,1:3]);scalar y = bitand(Y(U[0:2,3:1:-1]));
> refused line 5: outside;

stencil toolon lower (0,1,1) upper (0,0,1) = 7;
stencil J lower (0,1) upper (0,0) = where(@(0,0) < @(0,-1), @(0,0), abs(@(0,0)));
layout W (1:3,-1:1) cuts ((2,3),()) internal (1,2) external (0,1);brick s (0:3,-2:1);s = 3 * index(0) + 3 * index(1) - 3;
repeat 2;s[1:3,0:1] = J(s[0:2,-2:0:1]);
> refused line 7: overlap;

layout Z (2:5) cuts (()) external (2);field H on Z faces extrapolate, constant -10951982398;brick K (-3:-2);
field B on Z faces extrapolate, ant layoutireflect;H[4] = K[-2] % 7;B[3:5:2] *= H[1:0:-1];B[5] = -(abs(2));print H[0:7];
print B[0:7];
> refused line 4: syntax;

layout U (-3:1,1:8,1:5) blocks (1,2,3) oninternal (1,1,0);brick Z (2:4);array  s on U # c;
layout W (1:2,1: brick4,1:2) cuts ((),(2),()) internal (0,0,2);Z[3:4:1] *= 100;scalar y = bitor(Z);
field X on U faces periodic, extrapolate, reflect, constant -328975234302, constant 7, constant -9223372036854775806;
Z[3] += max(X[-1,5,4], X[-2,4,5]);X[1,8,4] = -(abs(-(687041707029)));array M on U;print Z[2:4];print y;print X[-3:1,1:8,1:5];
print M[-3:1,1:8,1:5];
> refused line 1: syntax;

brick M (-1:2,-1:2);M = (2 * index(0) + 4 * index(1)) * index(1) - 5;stencil s lower (0) upper (1) = @(0) - @(0);
layout G (-1:1,-1:0,-1:1) cuts ((),(0),(0,1)) internal (2,1,0) external (2,2,0);
stencil H lower (0,1) upper (1,1) = max(@(1,1), @(1,-1)) - min(@(1,1), @(0,-1));M[0,0] = M[0,-1];scalar z = bitor(2 * H(M));
M = (M[2:-1:-1,-1:2:1]) / (-(1)) > -(index(1)) % min(H(M[-1:3,-1:4]), M[2:-1:-1,2:-1:-1]);
> refused line 8: outside;

layout T (0:2) blocks (2) external (2);array E on T;E = 10 * index(0) - 4;field s on T faces periodic, antireflect;
s = 4 * index(0) - 2;array F on T;F = 4 * index(0) - 1;repeat 2;F[0] -= -(F[3]);
E = (5) % (((F) > (F[2:0:-1])) % (-(E[2:0:-1])));
> refused line 10: overlap;

brick A (-2:0,1:3);A = 1 * index(0) + 4 * index(1) - 1;brick W (1:3,1:3);W = 4 * index(0) + 1 * index(1) - 4;A = 1;
W[1,1:3:2] *= (A[0,2:1:-1]) % (1);stencil H lower (0,0) upper (1,1) = @(1,1);
A[-2,1] += (min(608097859517, A[-2,2] & A[0,3])) + (where(W[3,1], W[3,3], 0) % W[1,2] < W[1,2]);
scalar z = sum(max(A, 9223372036854775806));scalar s = any(H(A[-2:-1,3:1:-2]) + index(0));W  = 1 when s;
> refused line 11: syntax;

stencil X lower (1,0,1) upper (1,1,0) = max(@(0,0,0), @(-1,0,0)) - min(@(0,0,0), @(0,0,-1));brick E (0:2,0:1,-1:1);
E = (4 * index(0) + 4 * index(1) + 1 * index(2)) * index(1) - 5;brick D (-1:1,0:1,-1:1);
D[-1:-1:2,1:1:1,-1:0:2] -= X(E[0:2,1:0:-1,1:-2:-2]);scalar y = count(X(D[1:-1:-1,0:2,-1:1:1]));
> refused line 6: outside;

brick s (-1:-1);brick H (1:6);brick C (-3);brick t (-1:2,2:5);scalar x = 1;block;C = t[-1:92233720368547758072,4] - C[-3:0];
layout T (-2:0) cuts ((0)) external (2);sc whenalar t = sum(C[-3:-3:-1] == s[-1:0:2]);
> refused line 3: syntax;

stencil H lower (1,0,1) upper (0,1,1) = @(0,0,1);layout X (-3:0) cuts ((-2,-1)) external (0);
stencil T lower (1) upper (1) = @(0);layout K (0:1,2:3) cuts ((1),(3));repeat 3;end;scalar x = bitand(100);
scalar t = all((T(M[0])) <= (C[0]));
> refused line 8: name;

layout s (-2:-1,-1:0) blocks (2,2) inteal (0,1) external (1,1);brick\tL (2:5);brick G (1:4,-3:0,0:4);
layout V (l (0,1) Cxternal (1,1);bri-1:1) blocks (1) internal (1);array t on s;
t[-2:-1,0] = (1 > G[2,-2:0:2,3]) == ((1) != (t[-1,1:0:-1])) + abs(L[3:4:1]);print L[2:5];print G[1:4,-3:0,0:4];
print t[-3:0,-2:1];
> refused line 1: syntax;

stencil C lower (0,0) upper (1,1) = @(0,0) <= @(0,0);brick G (1:4,0:1,-1:0);
layout W (1:1) blocks (1) internal (0) external (0);field T on W faces extrapolate, constant 1;layout B (0:2) cuts (());
G[1:2:1,1,0] -= 0;brick s (2:4,1:4);print G[2:4,0:0,0:0];T = -(T);layout D (1:3) cuts ((3)) internal (2) external (2);
s[2:2,1:2] = 10 - max(0, G[4,1:1,-1:0] / G[2,0:1,-1:0]);
> refused line 11: unequal;

stencil M lower (1) upper (0) = @(0);stencil T lower (1) upper (0) = max((4611686018427387904) + (@(0)), @(0) * @(-1));
brick C (-2:-2);stencil L lower (1) upper (0) = (@(0)) <= (@(-1));C[-2] = C[-2];
layout V (-3:-3,2:5,-3:-1,2:5) blocks (1,2,3,1) internal (0,0,0,1);
> refused line 6: dimension;

brick C (0:3,-2:0);C = 4 * index(0) + 3 * index(1) - 3;stencil M lower (1,0) upper (1,1) = @(1,1) + @(-1,0) - 2 * @(1,0);
scalar z = min(M(C[0:4,0:-3:-2]));
> refused line 4: outside;

field M on L faces constant 0, periodic;
> refused line 1: name;

brick L (-3:-2,1:4,0:3);brick H (1:4);stencil U lower (0) upper (1) = @(0);brick S (2:3);brick M (-3:0,1:5);
scalar s = abs((7) - (10));
L[-3,1,3:2:0]\t*= (index(0) > (L[-3,3:2,3]) >= (U(L[-3,1:1:-1,3]))) + (3 - (U(M[-2:-1:2,1])) == (U(L[-3,1:2:3,1]))) # c;
> refused line 7: syntax;

layout F (-2:1,2:3,-2:0) blocks (3,2,2) external (1,1,2);brick C (2:5,-3:-1);
field J on F faces antireflect, reflect, reflect, constant -100, periodic, periodic;brick t (2:6);
t -= max(abs(213497325310 % 4294967296), abs(5));t += J[-1,3,-2:2];scalar s = all(abs5:2:-1,-3:-2]));print C[2:5,-3:-1];
print J[-3:2,1:4,-4:2];print t[2:6];print s;
> refused line 7: syntax;

field A on s faces antireflect, extrapolate;
> refused line 1: name;

layout C (-1:1,-2:-2) blocks (2,1) internal (2,1) external (1,0);field M on C faces constant 0, periodic, periodic, periodic;
layout F (1:4,0:4) blocks (3,1) external (0,2);array I on C;block;scalar x = max(M);print I[1,-2];
I[-1:-1,-2:-2:3]  = abs(M[-1:-1:1,-2:-2]) & (M[-1:-1:1,-2:-2]) != (M[-1:0:3,-2:-1:3]) * -((B) / (I[0:0:1,-2:-2]));
> refused line 8: name;

brick t (0:1,-1:-1);layout L (0:3) cuts ((2)) internal (0) external (1);field E on L faces antireflect, constant 3;
E = (4 * index(0)) * index(0) - 4;brick D (1:5,-3:-1,1:2,0:0);
> refused line 5: dimension;

stencil H lower (1,1) upper (0,0) = -(@(0,-1) & 9223372036854775807);brick X (-1:2,0:2);X[0:0,1:1] = H(X[0:1:1,2:1:-1]);
X[-1:2,0:2] -= H(X[-1:3,0:3]);
> refused line 4: outside;

stencil F lower (0,1) upper (1,0) = max(@(1,-1), @(1,-1)) - min(@(0,0), @(0,0));brick H (-1:1,-1:1,1:4);
H = 1 * index(0) + 3 * index(1) + 4 * index(2) - 1;brick G (0:3,1:3);G = (2 * index(0) + 3 * index(1)) * index(0) - 5;
G[3:3,1:2] -= 2 * F(G[3:2:-1,1:3:1]);
> refused line 6: overlap;

brick X (-2:-1,1:2);X = (2 * index(0) + 3 * index(1)) * index(1) - 5;
stencil B lower (0,1) upper (0,1) = where(where(@(0,0), @(0,1), @(0,1)), @(0,-1) == @(0,-1), (3) % (@(0,-1)));
X[-2:-1,2:2:2] = B(X[-2:-1,1:3]);
> refused line 4: outside;

layout t (2:2,-2:0) blocks (1,1) internal (0,2) external (0,1);
field U on t faces reflect, periodic, constant 5, constant -4611686018427387904;brick X (-2:0,1:1);array B on t;
scalar z = all(7);X  = z # c;array toolon on t;repeat 2;
> refused line 9: open repeat;

brick X (-2:1,0:1);X = 4 * index(0) + 10 * index(1) - 1;stencil T lower (1,0) upper (0,1) = @(0,0);X[-2:0,1:1] -= T(X);
X[-2:0,1:1] *= T(X);X[1:-1:-1,0:1] -= T(X[1:-2:-1,0:2]) + index(0);
> refused line 6: outside;

stencil G lower (1,1) upper (1,0) = @(0,0) + @(-1,-1) - 2 * @(1,-1);brick U (-1:0,0:1);
U = (3 * index(0) + 1 * index(1)) * index(1) - 2;U[-1:-1,0:1] += G(U[-1:1,0:2]);
> refused line 4: outside;

brick Z (-3:0,0:3,0:4);brick J (-2:1,-1:3);brick Y (-2:1);layout D (-3:1) cuts ((-1)) internal (0) exrnal (2);
array toolon on D;field U on D faces constant -7, reflect;Z\t*= index(0);Z = index(2) * abs(Z[-3:0,0:3,0:4] < Z);
scalar x = any(abs((0 >= Z[0:-3:-2,3:3:2,3]) < (0 + J[0:1:1,3:4:2])));scalar z = U[3];layout W (0:3) blocks (1) external (2);
scalar y = (-(Z[-2,2,3] < index(0))) < (((1) * (index(0))) * (J[1,2]));
> refused line 4: syntax;

brick A (-1:2,-2:-1);layout s (-1:1,-2:-1) blocks (2,2) internal (2,2);
layout H (-2:1,-2:1) blocks (2,1) internal (0,0) external (1,1);brick I (1:3,1:3);I[1:1:2,3] -= (0) & (I[2:4:3,1]);repeat 2;
scalar t = max(A[-1:1,-2:0]);
> refused line 7: outside;

brick C (0:1,1:3);C = 4 * index(0) + 2 * index(1) - 3;field\tT on C faces antireflect, reflect\r;
> refused line 3: name;

layout S (2:4) blocks (3) internal (1) external (1);array E on S;
layout t (-1:3,1:2) cuts ((3),(2)) internal (1,1) external (2,0);field G on S faces antireflect, constant 1;array s on S;
brick A (-3:0,1:5,1:5);brick D (2:6);scal z = max((G[4]) | (1));s += 0;scalar y = -(-((z) | (G[2])));
E= where(A[-1,3,3:5] == index(0), (s[2:4]) != (4294967296), (5) != (E[2:4])) # c;print E[1:5];print G[1:5];print s[1:5];
print z;
> refused line 8: syntax;

stencil X lower (1,0) upper (1,1) = min(10, min(1, abs(9223372036854775807)));brick L (0:1,1:3);
L\t= 3 * index(0) + 2 * index(1) - 5;stencil F lower (0,0,0) upper (1,0,1) = 0;scalar t = L[0,3];
L = (9223372036854775807) * (L[0:1:1,3:1:-1]) == max(X(L[0:3,1:4]), index(1));
> refused line 6: outside;

stencil U lower (1,0,0) upper (0,0,0) = @(0,0,0);layout A (-2:1)gcuts (()) external (1);brick J (-1:2,-3:0,2:5);
layout t (2:2) blocks (1) internal (0) external (1);stencil C lower (1) upper (1) = abs(@(0));
scalar y = all(-(J[0,-3:-1:1,4]));J[0,-2:-1:3,2:2:1] = 4294967296;J[1:-1:-2,-2,2:5] *= 9223372036854775807;
print J[-1:2:3,-2:-3:-1,5:-1];array V on t;
J[1:1,-3:-3,3:3]  += min(y % U(J[-1:4:3,-1:-1:-2,4:4:2]), U(J[1:0:-1,-2:-2:1,5:5:-1]) % 2);J = (J) > (index(1));
prit J[-1:2,-3:0,2:5];print y;print V[1:3];
> refused line 2: syntax;

field A on A faces periodic, extrapolate;
> refused line 1: name;";

#[test]
fn drawn_scripts_are_stopped(rt: HostRuntime) {
    assert!(rt; first_otherwise(rt.alloc(), FAULTED, Status::Faulted) == Ok(None));
    assert!(rt; first_otherwise(rt.alloc(), REFUSED, Status::Refused) == Ok(None));
}
